// A whole run, on one thread or on many.
ghost use Rattle.std.specs.Prelude.{◌≡◌, ◌≤◌, ◌+◌, ◌<◌, ◌++◌, length, replicate, vec_len};
ghost use Rattle.std.specs.Prelude.{vec_capacity, All, take, is_some, true};
ghost use Rattle.std.specs.Prelude.{IfOk, IfSome, OnOk};
ghost use Rattle.cy_msg.specs.Placement.{scan_of, processors_of};
ghost use Rattle.cy_msg.specs.declared.placement.TheConstants.{MOST_PROCESSORS};
ghost use Rattle.wake_core.specs.Run.{routes_of};
ghost use Rattle.wake_core.specs.Serial.{SerialRun};
ghost use Rattle.wake_core.specs.LawfulRun.{LawfulRun};
ghost use Rattle.wake_core.specs.Rest.{MayPlay, StaysMade, run_shown};
ghost use Rattle.wake_core.specs.Way.{IsLed};
ghost use Rattle.wake_core.specs.WorldOf.{plain_of};
ghost use Rattle.cy_table.specs.Calls.{seat_of};
ghost use Rattle.cy_run.specs.Passes.{IsFree};
ghost use Rattle.cy_run.specs.Playing.{IsFreePlayer};
ghost use Rattle.cy_run.specs.Running.{MayRun, orders_of, IsAlone, IsCrew, IsMustered};
ghost use Rattle.cy_run.specs.Running.{plans_of, posts_from, IsHiredBy, IsDismissed};
ghost use Rattle.cy_run.specs.declared.run.TheConstants.{MOST_THREADS};

use crate::driving::drive_with;
use crate::{Gate, Idle, RunError, Worker};
use cy_comp::Wiring;
use cy_ctx::Context;
use cy_msg::{ContextPlan, MOST_PROCESSORS, Placement, PlayList};
use cy_table::{FlagTable, Pass};
use std::alloc::Global;
use std::sync::Wait;
use std::thread::Threads;
use wake_core::{World, finish, laws, serial};

// How many processors get a thread at most. A table has room for so many passes and one more beside
// that of the player, and the deputy has one.
const MOST_THREADS: u32 = MOST_PROCESSORS - 1;

/// Plays a list in a world that was made for it and in which nothing has happened, and resumes
/// components on this thread, in the order of the scan. Each world on the way is safe. It takes no
/// memory. It is for programs that set up a world of their own.
pub fn run_serial(mut world: World, list: &PlayList, placement: &Placement) -> World
    requires { MayPlay (plain_of world) list.now.tokens (scan_of placement.now.contexts) }
    ensures run { SerialRun (plain_of world).routes (plain_of world).stop
        (scan_of placement.now.contexts) list.now.tokens (run_shown (plain_of result)) }
    ensures lawful { LawfulRun list.now.tokens (plain_of world).routes (plain_of world).stop
        (plain_of result) }
    ensures stays { StaysMade (plain_of world) (plain_of result) }
    ensures led { IsLed (plain_of world) (plain_of result) }
{
    serial(&mut world, list, placement);
    world
}

/// Plays a list in a world that was made for it and in which nothing has happened, while processors
/// run the components of their contexts. Each processor gets a thread, 63 at most, as long as the
/// system gives one. The components of a context to which no processor came are run by the thread
/// that calls, between the messages. The world that comes out is that of a lawful run, and each
/// world on the way to it is safe. Its only error is `Memory`, and then the world is given up. It
/// may wait.
pub fn run_threads<G: Gate, R: Threads + Wait + Sync>(
    rt: &R,
    alloc: Global,
    world: World,
    wiring: &Wiring,
    list: &PlayList,
    placement: &Placement,
    gate: &G,
) -> Result<World, RunError>
    requires { MayRun (plain_of world) wiring.now.plans list.now.tokens
        (scan_of placement.now.contexts) }
    ensures lawful { IfOk result (λ w. LawfulRun list.now.tokens (routes_of wiring.now.plans)
        (plain_of world).stop (plain_of w)) }
    ensures counts { IfOk result (λ w. (plain_of w).counts ≡ (plain_of world).counts) }
    ensures led { IfOk result (λ w. IsLed (plain_of world) (plain_of w)) }
{
    laws::put();
    laws::ways();
    world.sound();
    let plans = placement.contexts.as_slice();
    let threads = processors_in(placement).min(MOST_THREADS);
    let idle = Idle::new(alloc, threads)?;
    let contexts = contexts_of(alloc, plans)?;
    let stop = world.given();
    let Ok((table, mut player)) = FlagTable::new(alloc, world) else {
        return Err(RunError::Memory);
    };
    let mut crew = crew_of(alloc, &table, &mut player, plans, threads)?;
    let pass = hire(&table, &mut player)?;
    let mut deputy = Some(pass);
    drive_with(
        rt,
        &table,
        &mut player,
        &mut deputy,
        crew.as_mut_slice(),
        contexts.as_slice(),
        &idle,
        wiring,
        list,
        gate,
        stop,
    );
    dismiss(&table, &mut player, deputy);
    muster(&table, &mut player, crew);
    let Ok(mut world) = table.close(alloc, player) else {
        return Err(RunError::Memory);
    };
    finish(&mut world, placement);
    world.sound();
    Ok(world)
}

// How many processors the contexts ask for.
fn processors_in(placement: &Placement) -> u32
    ensures { result ≡ processors_of placement.now.contexts }
{
    let mut processors = 0;
    for plan in placement.contexts.as_slice() {
        processors += plan.processors;
    }
    processors
}

// A context for each plan.
fn contexts_of(alloc: Global, plans: &[ContextPlan]) -> Result<Vec<Context>, RunError>
    ensures { IfOk result (λ v. v.items ≡ orders_of plans.now) }
{
    let mut contexts = Vec::with_capacity(alloc, plans.len())?;
    for plan in plans {
        let Ok(context) = Context::new(alloc, plan) else {
            return Err(RunError::Memory);
        };
        contexts.push_reserved(context);
    }
    Ok(contexts)
}

// The workers: as many of each context as it asks for processors, up to so many threads.
fn crew_of(
    alloc: Global,
    table: &FlagTable,
    player: &mut Pass,
    plans: &[ContextPlan],
    threads: u32,
) -> Result<Vec<Worker>, RunError>
    requires player { IsAlone table.now player.old }
    requires few { threads ≤ MOST_THREADS }
    ensures crew { IfOk result (λ v. IsCrew table.now (length plans.now) threads player.old
        player.new v.items) }
    ensures posts { IfOk result (λ v. plans_of v.items ≡ take threads (posts_from 0 plans.now)) }
{
    let mut crew = Vec::with_capacity(alloc, threads as usize)?;
    for (plan, context) in plans.iter().enumerate() {
        let hired = crew.len() as u32;
        let count = context.processors.min(threads - hired);
        add_workers(table, player, &mut crew, plan, plans.len(), count, threads)?;
    }
    Ok(crew)
}

// The workers of one context.
fn add_workers(
    table: &FlagTable,
    player: &mut Pass,
    crew: &mut Vec<Worker>,
    plan: usize,
    contexts: usize,
    count: u32,
    threads: u32,
) -> Result<(), RunError>
    requires crew { IsCrew table.now contexts threads player.old player.old crew.old.items }
    requires plan { plan < contexts }
    requires few { vec_len crew.old + count ≤ threads }
    requires room { (threads ≤ MOST_THREADS) × (threads ≤ vec_capacity crew.old) }
    ensures room { vec_capacity crew.new ≡ vec_capacity crew.old }
    ensures crew { OnOk result (IsCrew table.now contexts threads player.old player.new
        crew.new.items) }
    ensures all { OnOk result (vec_len crew.new ≡ vec_len crew.old + count) }
    ensures posts { OnOk result (plans_of crew.new.items
        ≡ plans_of crew.old.items ++ replicate count plan) }
{
    for _ in 0..count {
        let me = crew.len() as u32;
        let pass = hire(table, player)?;
        crew.push_reserved(Worker { pass, plan, me });
    }
    Ok(())
}

// One pass more, split off the player's.
fn hire(table: &FlagTable, player: &mut Pass) -> Result<Pass, RunError>
    requires mine { IsFreePlayer table.now player.old }
    requires few { (seat_of player.old).split < MOST_PROCESSORS }
    ensures { IfOk result (λ p. IsHiredBy table.now player.old player.new p) }
{
    match table.split(player) {
        Ok(pass) => Ok(pass),
        Err(_) => Err(RunError::Memory),
    }
}

// Takes the pass of the deputy in.
fn dismiss(table: &FlagTable, player: &mut Pass, deputy: Option<Pass>)
    requires mine { IsFreePlayer table.now player.old }
    requires there { is_some deputy ≡ true }
    requires split { 0 < (seat_of player.old).split }
    requires free { IfSome deputy (λ p. IsFree table.now p) }
    ensures { IsDismissed table.now player.old player.new }
{
    match deputy {
        Some(pass) => table.join(player, pass),
        None => {}
    }
}

// Takes the passes of the workers in.
fn muster(table: &FlagTable, player: &mut Pass, crew: Vec<Worker>)
    requires mine { IsFreePlayer table.now player.old }
    requires all { (seat_of player.old).split ≡ vec_len crew }
    requires crew { All (λ w. IsFree table.now w.pass) crew.items }
    ensures { IsMustered table.now player.old player.new }
{
    for worker in crew {
        let Worker {
            pass,
            plan: _,
            me: _,
        } = worker;
        table.join(player, pass);
    }
}
