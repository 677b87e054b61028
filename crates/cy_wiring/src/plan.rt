// Components over numbered channels.
ghost use Rattle.std.specs.Prelude.{◌≡◌, length, map, IfOk};
ghost use Rattle.std.specs.List.{zip};
ghost use Rattle.cy_wiring.specs.Wiring.{number_in, plan_of, plans_of, queue_of_first};
ghost use Rattle.cy_msg.specs.Once.{IsOnce};

use crate::channels::number_in;
use cy_comp::Plan;
use cy_dag::{Config, DagComponent, DagReader};
use cy_msg::{Items, Names, NamesError, Text};
use std::alloc::{AllocError, Global};

// The components of a wiring, in the order of the DAG.
pub(crate) fn plans(
    alloc: Global,
    names: &Names,
    components: &[DagComponent],
    configs: &[Config],
) -> Result<Vec<Plan>, NamesError>
    requires each { length configs.now ≡ length components.now }
    requires once { IsOnce names.now }
    ensures { IfOk result (λ ps. ps.items
        ≡ plans_of names.now (zip components.now configs.now)) }
{
    let mut plans = Vec::new(alloc);
    for (place, component) in components.iter().enumerate() {
        plans.push(plan(alloc, names, component, &configs[place])?)?;
    }
    Ok(plans)
}

// A component over numbered channels.
fn plan(
    alloc: Global,
    names: &Names,
    component: &DagComponent,
    config: &Config,
) -> Result<Plan, NamesError>
    requires { IsOnce names.now }
    ensures { IfOk result (λ p. p ≡ plan_of names.now (component.now, config.now)) }
{
    let readers = component.readers.as_slice();
    Ok(Plan {
        name: Text::new(alloc, component.name.as_str())?,
        kind: config.kind.copy()?,
        readers: Items::new(numbers(alloc, names, readers)?),
        queue: queue_of_first(readers),
        overflow: config.overflow,
        out: number_in(names, config.out.as_str()),
        options: config.options.copy(alloc)?,
        interval: component.interval,
    })
}

// The numbers of the channels that are read.
fn numbers(alloc: Global, names: &Names, readers: &[DagReader]) -> Result<Vec<u32>, AllocError>
    requires { IsOnce names.now }
    ensures { IfOk result (λ ns. ns.items
        ≡ map (λ r. number_in names.now r.channel) readers.now) }
{
    let mut numbers = Vec::new(alloc);
    for reader in readers {
        numbers.push(number_in(names, reader.channel.as_str()))?;
    }
    Ok(numbers)
}

// The queue of a component's first reader.
fn queue_of_first(readers: &[DagReader]) -> u32
    ensures { result ≡ queue_of_first readers.now }
{
    match readers.first() {
        Some(reader) => reader.queue,
        None => 1,
    }
}
