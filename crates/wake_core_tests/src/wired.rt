// Worlds of one component, before anything happens.
ghost use Rattle.std.specs.Prelude.{◌≡◌, ◌≤◌, ◌++◌, ◌∷◌, [], Some, None, IfOk, IfErr};
ghost use Rattle.std.specs.Prelude.{length};
ghost use Rattle.std.specs.List.{Contains};
ghost use Rattle.cy_fuse.specs.declared.overflow.Overflow.TheVariants as overflow;
ghost use Rattle.cy_comp.specs.Wiring.{IsWiring};
ghost use Rattle.wake_core.specs.declared.error.CoreError.TheVariants as CoreError;
ghost use Rattle.wake_core.specs.Run.{routes_of};
ghost use Rattle.wake_core.specs.Plain.{opening_world};
ghost use Rattle.wake_core_tests.specs.Groups.{Shows};
ghost use Rattle.wake_core_tests.specs.Runs.{passing as passing_route, summing as summing_route};
ghost use Rattle.wake_core_tests.specs.Runs.{stop_after_one};

use cy_comp::{Kind, Options, Plan, Wiring};
use cy_fuse::Overflow;
use cy_msg::{Items, Names, Stop, Text};
use std::alloc::Global;
use wake_core::{CoreError, World};

/// The world of a component that passes messages of /a on to /o and keeps so many of them, for so
/// many messages.
pub(crate) fn passing(alloc: Global, queue: u32, count: u32) -> Result<World, CoreError>
    requires queue { 1 ≤ queue }
    requires few { count ≤ 4 }
    ensures opening { IfOk result (Shows (opening_world (passing_route queue ∷ [])
        (count ∷ 0 ∷ []) None)) }
    ensures memory { IfErr result (λ e. e ≡ CoreError.Memory) }
{
    let plan = plan(alloc, Kind::Pass, &[0], queue, 1)?;
    let wiring = wired(alloc, two_names(alloc)?, plan)?;
    World::new(alloc, &wiring, &[count, 0], None)
}

/// The same for two messages, with a stop of the component behind the first one.
pub(crate) fn stopping(alloc: Global) -> Result<World, CoreError>
    ensures opening { IfOk result (Shows (opening_world (passing_route 1 ∷ []) (2 ∷ 0 ∷ [])
        (Some stop_after_one))) }
    ensures memory { IfErr result (λ e. e ≡ CoreError.Memory) }
{
    let plan = plan(alloc, Kind::Pass, &[0], 1, 1)?;
    let wiring = wired(alloc, two_names(alloc)?, plan)?;
    let stop = Stop {
        component: 0,
        after: 1,
    };
    World::new(alloc, &wiring, &[2, 0], Some(stop))
}

/// The world of a component that sums the values of /a and /b and writes /o, for two messages of
/// /a.
pub(crate) fn summing(alloc: Global) -> Result<World, CoreError>
    ensures opening { IfOk result (Shows (opening_world (summing_route ∷ [])
        (2 ∷ 0 ∷ 0 ∷ []) None)) }
    ensures memory { IfErr result (λ e. e ≡ CoreError.Memory) }
{
    let plan = plan(alloc, Kind::Sum, &[0, 1], 1, 2)?;
    let wiring = wired(alloc, three_names(alloc)?, plan)?;
    World::new(alloc, &wiring, &[2, 0, 0], None)
}

// The names of a channel that is read and of one that is written.
fn two_names(alloc: Global) -> Result<Names, CoreError>
    ensures names { IfOk result (λ n. length n ≡ 2) }
    ensures memory { IfErr result (λ e. e ≡ CoreError.Memory) }
{
    let mut names = Names::new(alloc);
    add(&mut names, alloc, "/a")?;
    add(&mut names, alloc, "/o")?;
    Ok(names)
}

// The same with two that are read.
fn three_names(alloc: Global) -> Result<Names, CoreError>
    ensures names { IfOk result (λ n. length n ≡ 3) }
    ensures memory { IfErr result (λ e. e ≡ CoreError.Memory) }
{
    let mut names = Names::new(alloc);
    add(&mut names, alloc, "/a")?;
    add(&mut names, alloc, "/b")?;
    add(&mut names, alloc, "/o")?;
    Ok(names)
}

// One more name.
fn add(names: &mut Names, alloc: Global, name: &str) -> Result<(), CoreError>
    requires { ¬ (Contains names.old name.now) }
    ensures added { IfOk result (λ _. names.new ≡ names.old ++ name.now ∷ []) }
    ensures memory { IfErr result (λ e. e ≡ CoreError.Memory) }
{
    match names.add(alloc, name) {
        Ok(_) => Ok(()),
        Err(_) => Err(CoreError::Memory),
    }
}

// A component of a class that reads these channels, keeps so many tuples and writes a channel.
fn plan(alloc: Global, kind: Kind, readers: &[u32], queue: u32, out: u32) -> Result<Plan, CoreError>
    ensures kind { IfOk result (λ p. p.kind ≡ kind) }
    ensures wired { IfOk result (λ p. (p.readers ≡ readers.now) × (p.queue ≡ queue)
        × (p.overflow ≡ overflow.Newest) × (p.out ≡ out)
        × (p.interval ≡ None)) }
    ensures memory { IfErr result (λ e. e ≡ CoreError.Memory) }
{
    Ok(Plan {
        name: text(alloc, "worked")?,
        kind,
        readers: Items::new(Vec::from_slice(alloc, readers)?),
        queue,
        overflow: Overflow::Newest,
        out,
        options: options(alloc)?,
        interval: None,
    })
}

// The options of a file that has none.
fn options(alloc: Global) -> Result<Options, CoreError>
    ensures { IfErr result (λ e. e ≡ CoreError.Memory) }
{
    Options::with_type(alloc, "").map_err(|_| CoreError::Memory)
}

// A copy of a text.
fn text(alloc: Global, text: &str) -> Result<Text, CoreError>
    ensures { IfErr result (λ e. e ≡ CoreError.Memory) }
{
    Text::new(alloc, text).map_err(|_| CoreError::Memory)
}

// The wiring of one component over channels with these names.
fn wired(alloc: Global, names: Names, plan: Plan) -> Result<Wiring, CoreError>
    requires { IsWiring names (plan ∷ []) }
    ensures wired { IfOk result (λ w. (w.names ≡ names) × (w.plans ≡ plan ∷ [])) }
    ensures memory { IfErr result (λ e. e ≡ CoreError.Memory) }
{
    Ok(Wiring::new(names, Items::new(vec![in alloc; plan]?)))
}
