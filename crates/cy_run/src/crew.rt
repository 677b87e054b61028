// All processors, on threads as long as the system gives some.
ghost use Rattle.std.specs.Prelude.{length};
ghost use Rattle.cy_run.specs.Passes.{IsMadeOf};
ghost use Rattle.cy_run.specs.Driving.{AreManned, HaveWorked, IsManned, HasWorked};

use crate::processor::work;
use crate::{Gate, Idle};
use cy_comp::Wiring;
use cy_ctx::Context;
use cy_table::{FlagTable, Pass};
use std::sync::Wait;
use std::thread;
use std::thread::Threads;

/// A processor: its pass, the number of its context and its own number, which is that of its
/// parker.
#[derive(Drop)]
pub struct Worker {
    /// Its pass.
    pub pass: Pass,
    /// The number of its context.
    pub plan: usize,
    /// Its own number.
    pub me: u32,
}

// Each worker works in a thread, as long as the system gives some.
pub(crate) fn work_all<G: Gate, R: Threads + Wait + Sync>(
    rt: &R,
    table: &FlagTable,
    crew: &mut [Worker],
    contexts: &[Context],
    idle: &Idle,
    wiring: &Wiring,
    gate: &G,
)
    requires made { IsMadeOf table.now wiring.now.plans }
    requires crew { AreManned table.now contexts.now idle.now crew.old }
    ensures worked { HaveWorked table.now contexts.now crew.old crew.new }
{
    let threads = crew.len();
    if threads > 0 {
        thread::for_each_mut(
            rt,
            crew,
            threads,
            &|_index: usize, worker: &mut Worker|
                requires made { IsMadeOf table.now wiring.now.plans }
                requires manned { IsManned table.now contexts.now idle.now worker.now }
            { work_as(rt, table, worker, contexts, idle, wiring, gate) },
        );
    }
}

// One worker works.
fn work_as<G: Gate, R: Wait>(
    rt: &R,
    table: &FlagTable,
    worker: &mut Worker,
    contexts: &[Context],
    idle: &Idle,
    wiring: &Wiring,
    gate: &G,
)
    requires made { IsMadeOf table.now wiring.now.plans }
    requires manned { IsManned table.now contexts.now idle.now worker.old }
    ensures worked { HasWorked table.now contexts.now worker.old worker.new }
{
    let Worker { pass, plan, me } = worker;
    let context = &contexts[*plan];
    work(rt, table, pass, context, idle, *me, wiring, gate);
}
