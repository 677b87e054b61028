// A processor.
ghost use Rattle.std.specs.Prelude.{◌<◌, IfSome, IfNone};
ghost use Rattle.cy_table.specs.Calls.{seat_of, Stays};
ghost use Rattle.cy_ctx.specs.Scan.{MayScan};
ghost use Rattle.cy_run.specs.Passes.{IsMadeOf, IsFree};
ghost use Rattle.cy_run.specs.private.Serving.{IsReady};
ghost use Rattle.cy_run.specs.Working.{EndsInVain, IsOrderOf, MayWork};

use crate::serve::serve;
use crate::{Gate, Idle};
use cy_comp::Wiring;
use cy_ctx::{Context, take};
use cy_pace::bit_of;
use cy_table::{FlagTable, Hold, Pass};
use std::sync::Wait;

// How many rounds a processor goes at most by what is known of its components before it scans all.
// What is known may be behind: a component that is filled while it fetches in vain counts as having
// nothing to do.
const ROUNDS: u32 = 256;

/// The work of the processor with the number `me`: it resumes croutines of its context, and rests
/// where none is READY. For some rounds it resumes those alone whose components are known to have
/// something to do, and looks for news where there are none; then it scans all. It ends only where
/// it found the run closing and a scan after that was in vain. It takes no memory.
pub fn work<G: Gate, R: Wait>(
    rt: &R,
    table: &FlagTable,
    pass: &mut Pass,
    context: &Context,
    idle: &Idle,
    me: u32,
    wiring: &Wiring,
    gate: &G,
)
    requires { MayWork table.now wiring.now.plans context.now idle.now me pass.old }
    ensures same { Stays table.now pass.old pass.new }
    ensures free { IsFree table.now pass.new }
    ensures over { EndsInVain context.now (seat_of pass.new).note }
{
    idle.enter(me, context.order());
    let mut rounds = ROUNDS;
    for _ in rt.forever() {
        let seen = idle.news(me);
        let closing = table.closing(pass);
        if rounds < ROUNDS && !closing {
            rounds += 1;
            if let Some(hold) = next_busy(table, pass, context, idle.busy()) {
                serve(rt, table, pass, hold, idle, wiring, gate);
                continue;
            }
            if idle.hears_soon(me, seen) {
                continue;
            }
            rounds = ROUNDS;
        }
        match context.next(table, pass) {
            Some(hold) => serve(rt, table, pass, hold, idle, wiring, gate),
            None => {
                if idle.rest(rt, me, seen, closing) && closing {
                    return;
                }
                rounds = 0;
            }
        }
    }
    unreachable!()
}

// The first croutine in the order of a context that is READY, of those whose components are in a
// mask, in hand.
pub(crate) fn next_busy(
    table: &FlagTable,
    pass: &mut Pass,
    context: &Context,
    busy: u64,
) -> Option<Hold>
    requires inside { IsOrderOf table.now context.now }
    requires free { IsFree table.now pass.old }
    ensures same { Stays table.now pass.old pass.new }
    ensures none { IfNone result (IsFree table.now pass.new) }
    ensures some { IfSome result (λ h. IsReady table.now pass.new h) }
{
    if busy == 0 {
        return None;
    }
    for component in context.order() {
        if busy & bit_of(*component as usize) != 0 {
            if let Some(hold) = take(table, pass, *component) {
                return Some(hold);
            }
        }
    }
    None
}
