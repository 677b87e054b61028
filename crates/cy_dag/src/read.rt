// Reads a DAG file.
ghost use Rattle.std.specs.Prelude.{◌≡◌, ◌≤◌, ◌+◌, ◌++◌, ◌∷◌, [], length, map, IfOk, IfErr, OnOk};
ghost use Rattle.std.specs.List.{flat_map};
ghost use Rattle.cy_config.specs.Lookups.{messages_under};
ghost use Rattle.cy_dag.specs.DagFile.{component_of, component_refusal, components_of};
ghost use Rattle.cy_dag.specs.DagFile.{components_refusal, count_of, count_refusal};
ghost use Rattle.cy_dag.specs.DagFile.{dag_refusal, described, described_refusal, fields_refusal};
ghost use Rattle.cy_dag.specs.DagFile.{timer_of, timer_refusal, timers_refusal, unknown_in_dag};
ghost use Rattle.cy_dag.specs.Refusals.{IsDue};

use crate::component::{component, test_component};
use crate::format::DagMessage;
use crate::timer::{interval_of, test_timer, timer};
use crate::{Dag, DagComponent, DagError, MOST_COMPONENTS};
use cy_config::{check, messages_under};
use cy_msg::Items;
use cy_text::Tree;
use std::alloc::{AllocError, Global};

/// The components that a DAG file describes, and behind them its timer components. Its errors are
/// tested in an order: of the whole file `Shape`, `NoComponents` and `TooMany`, then of each
/// component the others but `ZeroInterval`, and then of each timer component `Missing` of `name`,
/// `NameTwice`, `UnknownClass`, `TooFewReaders`, `Missing` of `config_file_path` and of `interval`,
/// and `ZeroInterval`; and the first one that is due is answered.
pub fn read_dag(alloc: Global, tree: &Tree) -> Result<Dag, DagError>
    ensures accepted { IfOk result (λ d. (dag_refusal tree.now ≡ None)
        × (d.components ≡ components_of tree.now)) }
    ensures unknown { IfOk result (λ d. d.unknown ≡ unknown_in_dag tree.now) }
    ensures refused { IfErr result (IsDue (dag_refusal tree.now)) }
{
    let unknown = check(alloc, DagMessage::File, tree)?;
    match read_components(alloc, tree) {
        Ok(components) => Ok(Dag {
            components: Items::new(components),
            unknown,
        }),
        Err(error) => {
            drop(unknown);
            Err(error)
        }
    }
}

// The components of a DAG file, where each field is of its kind.
fn read_components(alloc: Global, tree: &Tree) -> Result<Vec<DagComponent>, DagError>
    ensures components { IfOk result (λ cs. cs.items ≡ components_of tree.now) }
    ensures few { IfOk result (λ cs. (1 ≤ length cs.items) × (length cs.items ≤ MOST_COMPONENTS)) }
    ensures accepted { OnOk result (fields_refusal tree.now ≡ None) }
    ensures refused { IfErr result (IsDue (fields_refusal tree.now)) }
{
    let modules = messages_under(alloc, tree, "module_config")?;
    let found = in_modules(alloc, &modules, "components")?;
    let timers = in_modules(alloc, &modules, "timer_components")?;
    tested(alloc, &found, &timers)
}

// The components and the timer components that messages describe.
fn tested(alloc: Global, found: &[&Tree], timers: &[&Tree]) -> Result<Vec<DagComponent>, DagError>
    ensures components { IfOk result (λ cs. cs.items
        ≡ described (map (λ m. m.now) found.now) (map (λ m. m.now) timers.now)) }
    ensures few { IfOk result (λ cs. (1 ≤ length cs.items) × (length cs.items ≤ MOST_COMPONENTS)) }
    ensures accepted { OnOk result (described_refusal
        (map (λ m. m.now) found.now) (map (λ m. m.now) timers.now) ≡ None) }
    ensures refused { IfErr result (IsDue (described_refusal
        (map (λ m. m.now) found.now) (map (λ m. m.now) timers.now))) }
{
    test_count(found.len() + timers.len())?;
    let mut components = tested_components(alloc, found)?;
    push_timers(alloc, &mut components, timers)?;
    Ok(components)
}

// Whether there are as many components as there may be.
fn test_count(count: usize) -> Result<(), DagError>
    ensures accepted { OnOk result (count_refusal count ≡ None) }
    ensures few { OnOk result ((1 ≤ count) × (count ≤ MOST_COMPONENTS)) }
    ensures refused { IfErr result (IsDue (count_refusal count)) }
{
    if count == 0 {
        return Err(DagError::NoComponents);
    }
    if count > MOST_COMPONENTS {
        return Err(DagError::TooMany {
            count: count_of(count),
        });
    }
    Ok(())
}

// The messages under a name in all modules.
fn in_modules<'a>(
    alloc: Global,
    modules: &[&'a Tree],
    name: &str,
) -> Result<Vec<&'a Tree>, AllocError>
    ensures { IfOk result (λ found. map (λ m. m.now) found.items
        ≡ flat_map (messages_under name.now) (map (λ m. m.now) modules.now)) }
{
    let mut found = Vec::new(alloc);
    for module in modules {
        let mut more = messages_under(alloc, module, name)?;
        found.append(&mut more)?;
    }
    Ok(found)
}

/// A count as a `u32`, and one above the greatest `u32` as that. It is for the counts of refusals.
pub fn count_of(count: usize) -> u32
    ensures { result ≡ count_of count }
{
    if count < 4_294_967_295 {
        count as u32
    } else {
        4_294_967_295
    }
}

// The components that messages describe, each tested behind those before it.
fn tested_components(alloc: Global, found: &[&Tree]) -> Result<Vec<DagComponent>, DagError>
    requires { length found.now ≤ 64 }
    ensures components { IfOk result (λ cs. cs.items
        ≡ map component_of (map (λ m. m.now) found.now)) }
    ensures tested { IfOk result (λ cs. components_refusal cs.items ≡ None) }
    ensures refused { IfErr result (IsDue
        (components_refusal (map component_of (map (λ m. m.now) found.now)))) }
{
    let mut components = Vec::new(alloc);
    for fields in found {
        push_tested(alloc, &mut components, fields)?;
    }
    Ok(components)
}

// Adds the component that a message describes, where it is accepted behind those that are there.
fn push_tested(
    alloc: Global,
    components: &mut Vec<DagComponent>,
    fields: &Tree,
) -> Result<(), DagError>
    requires { length components.old.items ≤ 64 }
    ensures accepted { OnOk result
        (component_refusal components.old.items (component_of fields.now) ≡ None) }
    ensures pushed { OnOk result
        (components.new.items ≡ components.old.items ++ component_of fields.now ∷ []) }
    ensures refused { IfErr result
        (IsDue (component_refusal components.old.items (component_of fields.now))) }
{
    let next = component(alloc, fields)?;
    if let Err(error) = test_component(alloc, components, &next) {
        drop(next);
        return Err(error);
    }
    components.push(next)?;
    Ok(())
}

// Adds the timer components that messages describe, each tested behind those before it.
fn push_timers(
    alloc: Global,
    components: &mut Vec<DagComponent>,
    timers: &[&Tree],
) -> Result<(), DagError>
    requires { length components.old.items + length timers.now ≤ 64 }
    ensures accepted { OnOk result
        (timers_refusal components.old.items (map (λ m. m.now) timers.now) ≡ None) }
    ensures pushed { OnOk result (components.new.items
        ≡ components.old.items ++ map timer_of (map (λ m. m.now) timers.now)) }
    ensures refused { IfErr result
        (IsDue (timers_refusal components.old.items (map (λ m. m.now) timers.now))) }
{
    for fields in timers {
        push_timer(alloc, components, fields)?;
    }
    Ok(())
}

// Adds the timer component that a message describes, where it is accepted behind those that are
// there.
fn push_timer(
    alloc: Global,
    components: &mut Vec<DagComponent>,
    fields: &Tree,
) -> Result<(), DagError>
    requires { length components.old.items ≤ 64 }
    ensures accepted { OnOk result (timer_refusal components.old.items fields.now ≡ None) }
    ensures pushed { OnOk result
        (components.new.items ≡ components.old.items ++ timer_of fields.now ∷ []) }
    ensures refused { IfErr result (IsDue (timer_refusal components.old.items fields.now)) }
{
    let next = timer(alloc, fields)?;
    if let Err(error) = test_timer(alloc, components, &next, interval_of(fields)) {
        drop(next);
        return Err(error);
    }
    components.push(next)?;
    Ok(())
}
