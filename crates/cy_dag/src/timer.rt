// Reads and tests a timer component of a DAG file.
ghost use Rattle.std.specs.Prelude.{◌≡◌, ◌≤◌, [], ◌∷◌, length, IfOk, IfErr, OnOk};
ghost use Rattle.cy_comp.specs.Wiring.{tick_channel};
ghost use Rattle.cy_config.specs.Refusals.{first_of};
ghost use Rattle.cy_dag.specs.DagFile.{component_refusal, interval_of, interval_refusal};
ghost use Rattle.cy_dag.specs.DagFile.{settings_of, text_in, tick_reader, timer_of};
ghost use Rattle.cy_dag.specs.Refusals.{IsDue};
ghost use Rattle.std.specs.Prelude.{codes};

use crate::component::{missing, settings, test_component, text};
use crate::{DagComponent, DagError, DagReader};
use cy_config::{message_under, text_under, u32_under};
use cy_msg::{Items, NamesError, Text};
use cy_text::Tree;
use std::alloc::Global;

// The timer component that a message describes.
pub(crate) fn timer(alloc: Global, fields: &Tree) -> Result<DagComponent, NamesError>
    ensures { IfOk result (λ c. c ≡ timer_of fields.now) }
{
    let none = Tree::new(alloc);
    let timer = timer_with(alloc, fields, settings(fields, &none));
    drop(none);
    timer
}

// The same, with the `config` that the message has.
fn timer_with(alloc: Global, fields: &Tree, settings: &Tree) -> Result<DagComponent, NamesError>
    requires { settings.now ≡ settings_of fields.now }
    ensures { IfOk result (λ c. c ≡ timer_of fields.now) }
{
    Ok(DagComponent {
        class_name: text(alloc, fields, "class_name")?,
        name: text(alloc, settings, "name")?,
        config_file_path: text(alloc, settings, "config_file_path")?,
        readers: tick_readers(alloc, text_under(settings, "name").unwrap_or(""))?,
        interval: Some(u32_under(settings, "interval").unwrap_or(0)),
    })
}

// What a timer component of a name reads: its ticks.
fn tick_readers(alloc: Global, name: &str) -> Result<Items<DagReader>, NamesError>
    ensures { IfOk result (λ rs. rs ≡ tick_reader name.now ∷ []) }
{
    let reader = DagReader {
        channel: tick_channel(alloc, name)?,
        queue: 1,
    };
    Ok(Items::new(vec![in alloc; reader]?))
}

// The channel on which the ticks of a timer component stand.
fn tick_channel(alloc: Global, name: &str) -> Result<Text, NamesError>
    ensures { IfOk result (λ t. t ≡ tick_channel name.now) }
{
    Ok(Text::from_string(format!(in alloc; "@timer/{name}")?))
}

// The interval that a message gives a timer component.
pub(crate) fn interval_of(fields: &Tree) -> Option<u32>
    ensures { result ≡ interval_of fields.now }
{
    u32_under(message_under(fields, "config")?, "interval")
}

// Whether a timer component is accepted behind those before it, with the interval that it is given.
pub(crate) fn test_timer(
    alloc: Global,
    earlier: &[DagComponent],
    timer: &DagComponent,
    interval: Option<u32>,
) -> Result<(), DagError>
    requires { length earlier.now ≤ 64 }
    ensures accepted { OnOk result (first_of (component_refusal earlier.now timer.now
        ∷ interval_refusal (length earlier.now) interval ∷ []) ≡ None) }
    ensures refused { IfErr result (IsDue (first_of (component_refusal earlier.now timer.now
        ∷ interval_refusal (length earlier.now) interval ∷ []))) }
{
    test_component(alloc, earlier, timer)?;
    test_interval(alloc, earlier.len() as u32, interval)
}

// Whether an interval is accepted.
fn test_interval(alloc: Global, number: u32, interval: Option<u32>) -> Result<(), DagError>
    ensures accepted { OnOk result (interval_refusal number interval ≡ None) }
    ensures refused { IfErr result (IsDue (interval_refusal number interval)) }
{
    match interval {
        None => Err(missing(alloc, number, "interval")),
        Some(0) => Err(DagError::ZeroInterval { component: number }),
        Some(_) => Ok(()),
    }
}
