// Tests the values that all component files give.
ghost use Rattle.std.specs.Prelude.{◌≡◌, ◌≤◌, ◌++◌, ℕ, List, length, map, None};
ghost use Rattle.std.specs.Prelude.{option_and_then, IfOk, IfErr, OnOk};
ghost use Rattle.std.specs.Option.{option_or};
ghost use Rattle.cy_wiring.specs.Given.{built_in_writer, difference, differs_refusal, given_by};
ghost use Rattle.cy_wiring.specs.Given.{all_given_refusal, is_built_in, maker_of, written_refusal};
ghost use Rattle.cy_dag.specs.Refusals.{IsDue};
ghost use Rattle.cy_wiring.specs.private.Pairs.{first_kept, own_value, pair_of};

use crate::triggers::timer_named;
use cy_comp::Kind;
use cy_dag::{Config, DagComponent, DagError};
use cy_value::ChannelValue;
use std::alloc::{AllocError, Global};
use std::collections::HashMap;

// A value, and the number of the component whose file gives it.
#[derive(Clone, Copy)]
pub struct Given<'a> {
    pub(crate) component: u32,
    pub(crate) value: &'a ChannelValue,
}

// Whether no two values of a channel differ, and none is of a channel whose messages are made in
// the play.
pub(crate) fn test_given(
    alloc: Global,
    components: &[DagComponent],
    configs: &[Config],
) -> Result<(), DagError>
    requires components { length components.now ≤ 64 }
    requires configs { length configs.now ≤ 64 }
    ensures accepted { OnOk result (all_given_refusal components.now configs.now ≡ None) }
    ensures refused { IfErr result (IsDue (all_given_refusal components.now configs.now)) }
{
    let given = given_by(alloc, configs)?;
    test_same(alloc, &given)?;
    test_written(components, configs, &given)
}

// The values of all component files, in their order.
fn given_by(alloc: Global, configs: &[Config]) -> Result<Vec<Given<'_>>, AllocError>
    requires { length configs.now ≤ 64 }
    ensures { IfOk result (λ gs. map pair_of gs.items ≡ given_by configs.now) }
{
    let mut given = Vec::new(alloc);
    for (place, config) in configs.iter().enumerate() {
        push_values(&mut given, place as u32, config.options.values.as_slice())?;
    }
    Ok(given)
}

// Adds the values of a component's file.
fn push_values<'a>(
    given: &mut Vec<Given<'a>>,
    component: u32,
    values: &'a [ChannelValue],
) -> Result<(), AllocError>
    ensures { OnOk result (map pair_of given.new.items ≡ map pair_of given.old.items
        ++ map (λ value. (component, value)) values.now) }
{
    for value in values {
        given.push(Given { component, value })?;
    }
    Ok(())
}

// Whether no two values of a channel differ.
#[tactic(auto, unfolding(crate::specs::Given::differs_refusal))]
fn test_same(alloc: Global, given: &[Given<'_>]) -> Result<(), DagError>
    ensures accepted { OnOk result (differs_refusal (map pair_of given.now) ≡ None) }
    ensures refused { IfErr result (IsDue (differs_refusal (map pair_of given.now))) }
{
    let mut firsts = HashMap::new(alloc);
    for value in given {
        test_next(&mut firsts, *value)?;
    }
    Ok(())
}

// Whether a value doesn't differ from the first one of its channel. It is kept where it is the
// first.
fn test_next<'a>(firsts: &mut HashMap<&'a str, Given<'a>>, value: Given<'a>) -> Result<(), DagError>
    ensures accepted { OnOk result
        (option_and_then (λ first. difference first (pair_of value.entry))
        (first_kept firsts.old value.entry.value.now.channel) ≡ None) }
    ensures kept { OnOk result ((channel : List ℕ) → first_kept firsts.new channel
        ≡ option_or (first_kept firsts.old channel) (own_value (pair_of value.entry) channel)) }
    ensures refused { IfErr result (IsDue
        (option_and_then (λ first. difference first (pair_of value.entry))
        (first_kept firsts.old value.entry.value.now.channel))) }
{
    let channel = value.value.channel.as_str();
    if let Some(first) = firsts.get(channel) {
        return test_alike(first, &value);
    }
    firsts.insert(channel, value)?;
    Ok(())
}

// Whether two values of a channel don't differ.
fn test_alike(first: &Given<'_>, second: &Given<'_>) -> Result<(), DagError>
    ensures accepted { OnOk result (difference (pair_of first.now) (pair_of second.now) ≡ None) }
    ensures refused { IfErr result (IsDue
        (difference (pair_of first.now) (pair_of second.now))) }
{
    if first.value.form.is_same(&second.value.form) {
        return Ok(());
    }
    Err(DagError::ValueDiffers {
        first: first.component,
        second: second.component,
    })
}

// Whether no value is of a channel whose messages are made in the play.
#[tactic(auto, unfolding(crate::specs::Given::written_refusal))]
fn test_written(
    components: &[DagComponent],
    configs: &[Config],
    given: &[Given<'_>],
) -> Result<(), DagError>
    requires components { length components.now ≤ 64 }
    requires configs { length configs.now ≤ 64 }
    ensures accepted { OnOk result (written_refusal components.now configs.now
        (map pair_of given.now) ≡ None) }
    ensures refused { IfErr result (IsDue (written_refusal components.now configs.now
        (map pair_of given.now))) }
{
    for value in given {
        if let Some(writer) = maker_of(components, configs, value.value.channel.as_str()) {
            return Err(DagError::ValueWritten {
                component: value.component,
                writer: writer as u32,
            });
        }
    }
    Ok(())
}

// The component that makes the messages of a channel.
fn maker_of(components: &[DagComponent], configs: &[Config], channel: &str) -> Option<usize>
    ensures { result ≡ maker_of components.now configs.now channel.now }
{
    built_in_writer(configs, channel).or(timer_named(components, channel))
}

// The component of a built-in class that writes a channel.
fn built_in_writer(configs: &[Config], channel: &str) -> Option<usize>
    ensures { result ≡ built_in_writer configs.now channel.now }
{
    configs
        .iter()
        .position(|c| is_built_in(&c.kind) && c.out.as_str() == channel)
}

// Whether the messages of a class are made in the play.
fn is_built_in(kind: &Kind) -> bool
    ensures { result ≡ is_built_in kind.now }
{
    !matches!(kind, Kind::External { .. })
}
