// Wires and places the components of a configuration.
ghost use Rattle.std.specs.Prelude.{◌≡◌, map, length, IfOk, IsOkUnless};
ghost use Rattle.std.specs.List.Sorted.{IsPermutation};
ghost use Rattle.cy_msg.specs.Placement.{scan_of};
ghost use Rattle.cy_sched.specs.Placing.{IsPlaced, numbers_below};
ghost use Rattle.cy_sched.specs.SchedFile.{IsPlaceable};
ghost use Rattle.cy_setup.specs.Steps.{configured};
ghost use Rattle.cy_setup.specs.Wiring.{IsWiredBy, wiring_in};

use crate::error::dag_fault;
use crate::{Configuration, SetupError};
use cy_comp::Wiring;
use cy_dag::DagComponent;
use cy_msg::{NamesError, Placement, Text};
use cy_sched::place;
use cy_wiring::wire;
use std::alloc::Global;

/// The wiring of a configuration's components over the channels of a record, or why there is none:
/// a fault of the DAG file.
pub fn wire_components(
    alloc: Global,
    dag_file: &str,
    configuration: &Configuration,
    record_channels: &[Text],
) -> Result<Wiring, SetupError>
    ensures { IsWiredBy (wiring_in dag_file.now record_channels.now (configured configuration.now))
        result }
{
    let configs = configuration.configs.as_slice();
    match wire(alloc, &configuration.dag, configs, record_channels) {
        Ok(wiring) => Ok(wiring),
        Err(fault) => Err(dag_fault(alloc, dag_file, fault)),
    }
}

/// Where the scheduler of a configuration places its components.
pub fn place_components(
    alloc: Global,
    configuration: &Configuration,
) -> Result<Placement, SetupError>
    requires { IsPlaceable configuration.now.sched }
    ensures placed { IfOk result (λ p. IsPlaced configuration.now.sched
        (map (λ c. c.name) configuration.now.dag.components) p.contexts) }
    ensures scan { IfOk result (λ p. IsPermutation
        (numbers_below (length configuration.now.dag.components)) (scan_of p.contexts)) }
    ensures only_memory { IsOkUnless result SetupError.Memory }
{
    let names = names_of(alloc, configuration.dag.components.as_slice())?;
    match place(alloc, &configuration.sched, &names) {
        Ok(placement) => Ok(placement),
        Err(_) => Err(SetupError::Memory),
    }
}

// The names of components.
fn names_of(alloc: Global, components: &[DagComponent]) -> Result<Vec<Text>, NamesError>
    ensures { IfOk result (λ names. names.items ≡ map (λ c. c.name) components.now) }
{
    let mut names = Vec::with_capacity(alloc, components.len())?;
    for component in components {
        names.push(Text::new(alloc, component.name.as_str())?)?;
    }
    Ok(names)
}
