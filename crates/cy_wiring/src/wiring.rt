// Wires the components of a DAG.
ghost use Rattle.std.specs.Prelude.{◌≡◌, length, map, None, OnOk, IfOk, IfErr};
ghost use Rattle.std.specs.List.{zip};
ghost use Rattle.cy_dag.specs.Refusals.{IsDue};
ghost use Rattle.cy_wiring.specs.Wiring.{AreConfigs, IsWired, channels_refusal, named, names_of};
ghost use Rattle.cy_wiring.specs.Wiring.{wire_refusal};
ghost use Rattle.cy_msg.specs.Once.{IsOnce};

use crate::channels::{count_different, mentions, names};
use crate::given::test_given;
use crate::plan::plans;
use crate::triggers::{test_cycles, test_outs};
use cy_comp::Wiring;
use cy_dag::{Config, Dag, DagComponent, DagError, count_of};
use cy_msg::{Items, MOST_NAMES, Names, Text};
use std::alloc::Global;

/// The wiring of a DAG's components, with the file of each, over the channels of a record. The
/// channels are numbered in the order in which they are first mentioned: those of the record, and
/// then of each component those that it reads and the one that it writes. Its errors are tested in
/// an order: `TwoWriters`, `TimerWritten`, `TriggerCycle`, `ValueDiffers`, `ValueWritten` and
/// `TooManyChannels`, and the first one that is due is answered.
pub fn wire(
    alloc: Global,
    dag: &Dag,
    configs: &[Config],
    record_channels: &[Text],
) -> Result<Wiring, DagError>
    requires { AreConfigs dag.now.components configs.now }
    ensures wired { IfOk result (IsWired record_channels.now dag.now.components configs.now) }
    ensures accepted { OnOk result
        (wire_refusal record_channels.now dag.now.components configs.now ≡ None) }
    ensures refused { IfErr result
        (IsDue (wire_refusal record_channels.now dag.now.components configs.now)) }
{
    let components = dag.components.as_slice();
    test_outs(components, configs)?;
    test_cycles(alloc, components, configs)?;
    test_given(alloc, components, configs)?;
    let names = channel_names(alloc, record_channels, components, configs)?;
    match plans(alloc, &names, components, configs) {
        Ok(plans) => Ok(Wiring::new(names, Items::new(plans))),
        Err(_) => {
            drop(names);
            Err(DagError::Memory)
        }
    }
}

// The names of all channels, where a wiring has names for so many.
fn channel_names(
    alloc: Global,
    record_channels: &[Text],
    components: &[DagComponent],
    configs: &[Config],
) -> Result<Names, DagError>
    requires { length configs.now ≡ length components.now }
    ensures accepted { IfOk result (λ ns. (channels_refusal (length ns) ≡ None)
        × (ns ≡ names_of record_channels.now (zip components.now configs.now))) }
    ensures once { IfOk result (λ ns. IsOnce ns) }
    ensures refused { IfErr result (IsDue (channels_refusal
        (length (names_of record_channels.now (zip components.now configs.now))))) }
{
    let mentions = mentions(alloc, record_channels, components, configs)?;
    tested_names(alloc, &mentions)
}

// The names that are mentioned, where a wiring has names for so many.
fn tested_names(alloc: Global, mentions: &[&str]) -> Result<Names, DagError>
    ensures accepted { IfOk result (λ ns. (channels_refusal (length ns) ≡ None)
        × (ns ≡ named (map (λ m. m.now) mentions.now))) }
    ensures once { IfOk result (λ ns. IsOnce ns) }
    ensures refused { IfErr result
        (IsDue (channels_refusal (length (named (map (λ m. m.now) mentions.now))))) }
{
    test_count(count_different(alloc, mentions)?)?;
    Ok(names(alloc, mentions)?)
}

// Whether a wiring has names for so many channels.
fn test_count(count: usize) -> Result<(), DagError>
    ensures accepted { OnOk result (channels_refusal count ≡ None) }
    ensures refused { IfErr result (IsDue (channels_refusal count)) }
{
    if count > MOST_NAMES {
        return Err(DagError::TooManyChannels {
            count: count_of(count),
        });
    }
    Ok(())
}
