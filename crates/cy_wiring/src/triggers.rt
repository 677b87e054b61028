// Tests who writes which channel, and who triggers whom.
ghost use Rattle.std.specs.Prelude.{◌≡◌, ◌≤◌, ◌<◌, length, None, IfOk, IfErr};
ghost use Rattle.std.specs.Prelude.{OnOk, IfSome, option_and_then};
ghost use Rattle.cy_dag.specs.Refusals.{IsDue};
ghost use Rattle.cy_wiring.specs.Triggers.{after, cycle_refusal, earlier_writer, is_at, met};
ghost use Rattle.cy_wiring.specs.Triggers.{trigger_in, trigger_of, triggers_of, way_back};
ghost use Rattle.cy_wiring.specs.Triggers.{ticks_on, ticks_refusal, timer_named, timer_written};
ghost use Rattle.cy_wiring.specs.Triggers.{writer_named, writers_refusal};
ghost use Rattle.cy_wiring.specs.Wiring.{outs_refusal};

use cy_dag::{Config, Cycle, DagComponent, DagError, reads};
use std::alloc::{AllocError, Global};

// Whether each component writes a channel of its own, and none the channel of ticks.
pub(crate) fn test_outs(components: &[DagComponent], configs: &[Config]) -> Result<(), DagError>
    requires components { length components.now ≤ 64 }
    requires configs { length configs.now ≤ 64 }
    ensures accepted { OnOk result (outs_refusal components.now configs.now ≡ None) }
    ensures refused { IfErr result (IsDue (outs_refusal components.now configs.now)) }
{
    test_writers(configs)?;
    test_ticks(components, configs)
}

// Whether each component writes a channel of its own.
#[tactic(auto, unfolding(crate::specs::Triggers::writers_refusal))]
fn test_writers(configs: &[Config]) -> Result<(), DagError>
    requires { length configs.now ≤ 64 }
    ensures accepted { OnOk result (writers_refusal configs.now ≡ None) }
    ensures refused { IfErr result (IsDue (writers_refusal configs.now)) }
{
    for second in 0..configs.len() {
        if let Some(first) = earlier_writer(configs, second) {
            return Err(DagError::TwoWriters {
                first: first as u32,
                second: second as u32,
            });
        }
    }
    Ok(())
}

// The first component before this one that writes the same channel.
fn earlier_writer(configs: &[Config], component: usize) -> Option<usize>
    requires { component < length configs.now }
    ensures { result ≡ earlier_writer configs.now component }
{
    writer_named(&configs[..component], configs[component].out.as_str())
}

// The first component that writes a channel.
fn writer_named(configs: &[Config], channel: &str) -> Option<usize>
    ensures { result ≡ writer_named configs.now channel.now }
{
    configs.iter().position(|c| c.out.as_str() == channel)
}

// Whether no component writes the channel of a timer component's ticks.
#[tactic(auto, unfolding(crate::specs::Triggers::ticks_refusal))]
fn test_ticks(components: &[DagComponent], configs: &[Config]) -> Result<(), DagError>
    requires components { length components.now ≤ 64 }
    requires configs { length configs.now ≤ 64 }
    ensures accepted { OnOk result (ticks_refusal components.now configs.now ≡ None) }
    ensures refused { IfErr result (IsDue (ticks_refusal components.now configs.now)) }
{
    for component in 0..configs.len() {
        if let Some(timer) = timer_written(components, configs, component) {
            return Err(DagError::TimerWritten {
                component: component as u32,
                timer: timer as u32,
            });
        }
    }
    Ok(())
}

// The timer component whose ticks stand on the channel that a component writes.
fn timer_written(components: &[DagComponent], configs: &[Config], component: usize) -> Option<usize>
    requires { component < length configs.now }
    ensures { result ≡ timer_written components.now configs.now component }
{
    timer_named(components, configs[component].out.as_str())
}

// The first timer component whose ticks stand on a channel.
pub(crate) fn timer_named(components: &[DagComponent], channel: &str) -> Option<usize>
    ensures { result ≡ timer_named components.now channel.now }
{
    components.iter().position(|c| ticks_on(c, channel))
}

// Whether the ticks of a timer component stand on a channel.
fn ticks_on(component: &DagComponent, channel: &str) -> bool
    ensures { result ≡ ticks_on channel.now component.now }
{
    component.interval.is_some() && reads(component.readers.as_slice(), channel)
}

// Whether no components trigger one another in a circle.
pub(crate) fn test_cycles(
    alloc: Global,
    components: &[DagComponent],
    configs: &[Config],
) -> Result<(), DagError>
    requires components { length components.now ≤ 64 }
    requires configs { length configs.now ≤ 64 }
    ensures accepted { OnOk result
        (cycle_refusal (triggers_of components.now configs.now) ≡ None) }
    ensures refused { IfErr result
        (IsDue (cycle_refusal (triggers_of components.now configs.now))) }
{
    let triggers = triggers_of(alloc, components, configs)?;
    test_triggers(alloc, &triggers)
}

// Which component triggers each.
fn triggers_of(
    alloc: Global,
    components: &[DagComponent],
    configs: &[Config],
) -> Result<Vec<Option<u32>>, AllocError>
    requires { length configs.now ≤ 64 }
    ensures { IfOk result (λ ts. ts.items ≡ triggers_of components.now configs.now) }
{
    let mut triggers = Vec::new(alloc);
    for component in components {
        triggers.push(trigger_of(configs, component))?;
    }
    Ok(triggers)
}

// The component that triggers this one.
fn trigger_of(configs: &[Config], component: &DagComponent) -> Option<u32>
    requires { length configs.now ≤ 64 }
    ensures { result ≡ trigger_of configs.now component.now }
{
    let reader = component.readers.as_slice().first()?;
    let writer = writer_named(configs, reader.channel.as_str())?;
    Some(writer as u32)
}

// Whether following triggers never comes back to a component.
#[tactic(auto, unfolding(crate::specs::Triggers::cycle_refusal))]
fn test_triggers(alloc: Global, triggers: &[Option<u32>]) -> Result<(), DagError>
    requires { length triggers.now ≤ 64 }
    ensures accepted { OnOk result (cycle_refusal triggers.now ≡ None) }
    ensures refused { IfErr result (IsDue (cycle_refusal triggers.now)) }
{
    for component in 0..triggers.len() {
        let start = component as u32;
        if let Some(steps) = way_back(triggers, start) {
            return Err(DagError::TriggerCycle {
                components: Cycle::new(met(alloc, triggers, start, steps + 1)?),
            });
        }
    }
    Ok(())
}

// In how many steps, beside the last one, following triggers first comes back to where it began.
#[tactic(auto, unfolding(crate::specs::Triggers::way_back))]
fn way_back(triggers: &[Option<u32>], start: u32) -> Option<usize>
    ensures way { result ≡ way_back triggers.now start }
    ensures few { IfSome result (λ n. n < length triggers.now) }
{
    let mut at = Some(start);
    for step in 0..triggers.len() {
        at = next(triggers, at);
        if is_at(at, start) {
            return Some(step);
        }
    }
    None
}

// The components that are met from one on, so many.
fn met(
    alloc: Global,
    triggers: &[Option<u32>],
    start: u32,
    count: usize,
) -> Result<Vec<u32>, AllocError>
    ensures { IfOk result (λ cs. cs.items ≡ met triggers.now start count) }
{
    let mut components = Vec::new(alloc);
    let mut at = Some(start);
    for _step in 0..count {
        components.push(at.unwrap_or(start))?;
        at = next(triggers, at);
    }
    Ok(components)
}

// The trigger of a component that was come to.
fn next(triggers: &[Option<u32>], at: Option<u32>) -> Option<u32>
    ensures { result ≡ option_and_then (trigger_in triggers.now) at }
{
    match triggers.get(at? as usize) {
        Some(trigger) => *trigger,
        None => None,
    }
}

// Whether something leads to a component.
fn is_at(at: Option<u32>, component: u32) -> bool
    ensures { result ≡ is_at at component }
{
    match at {
        Some(at) => at == component,
        None => false,
    }
}
