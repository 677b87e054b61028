// The player's deputy: it serves components in the player's thread, while no processor came for
// them.
ghost use Rattle.std.specs.Prelude.{◌≡◌, All, IfSome, IfNone, is_some};
ghost use Rattle.cy_table.specs.Calls.{Stays};
ghost use Rattle.cy_run.specs.Passes.{IsMadeOf, IsFree};
ghost use Rattle.cy_run.specs.private.Serving.{IsReady};
ghost use Rattle.cy_run.specs.Working.{IsOrderOf};
ghost use Rattle.cy_run.specs.Driving.{IsDeputy, MayDepute};

use crate::processor::next_busy;
use crate::serve::serve;
use crate::{Gate, Idle};
use cy_comp::Wiring;
use cy_ctx::Context;
use cy_table::{FlagTable, Hold, Pass};
use std::sync::Wait;

// Where there is a deputy, it is for the components of all contexts.
pub(crate) fn depute(deputy: &Option<Pass>, contexts: &[Context], idle: &Idle) {
    if deputy.is_some() {
        for context in contexts {
            idle.depute(context.order());
        }
    }
}

// As long as there are components that are left to the deputy, nobody has anything to do
// afterwards, as after a message of the serial run; but for what took too long.
pub(crate) fn settle<G: Gate, R: Wait>(
    rt: &R,
    table: &FlagTable,
    deputy: &mut Option<Pass>,
    contexts: &[Context],
    idle: &Idle,
    wiring: &Wiring,
    gate: &G,
)
    requires made { IsMadeOf table.now wiring.now.plans }
    requires deputy { MayDepute table.now contexts.now deputy.old }
    ensures deputy { MayDepute table.now contexts.now deputy.new }
    ensures there { is_some deputy.new ≡ is_some deputy.old }
{
    if idle.unserved() == 0 {
        return;
    }
    match deputy {
        Some(pass) => serve_all(rt, table, pass, contexts, idle, wiring, gate),
        None => {}
    }
}

// Serves what is left to the deputy, and waits for the others, until a scan is in vain that began
// when none of them was busy. It waits a second at most while nothing comes of it.
fn serve_all<G: Gate, R: Wait>(
    rt: &R,
    table: &FlagTable,
    pass: &mut Pass,
    contexts: &[Context],
    idle: &Idle,
    wiring: &Wiring,
    gate: &G,
)
    requires made { IsMadeOf table.now wiring.now.plans }
    requires deputy { IsDeputy table.now contexts.now pass.old }
    ensures deputy { IsDeputy table.now contexts.now pass.new }
{
    for _ in rt.forever() {
        let seen = idle.deputy_news();
        let busy = idle.busy();
        if let Some(hold) = next_of_all(table, pass, contexts, idle.unserved()) {
            serve(rt, table, pass, hold, idle, wiring, gate);
            continue;
        }
        if busy == 0 || !idle.await_turn(rt, seen) {
            return;
        }
    }
    unreachable!()
}

// The first croutine of all contexts that is READY, of those whose components are in a mask, in
// hand.
fn next_of_all(
    table: &FlagTable,
    pass: &mut Pass,
    contexts: &[Context],
    components: u64,
) -> Option<Hold>
    requires inside { All (IsOrderOf table.now) contexts.now }
    requires free { IsFree table.now pass.old }
    ensures same { Stays table.now pass.old pass.new }
    ensures none { IfNone result (IsFree table.now pass.new) }
    ensures some { IfSome result (λ h. IsReady table.now pass.new h) }
{
    for context in contexts {
        if let Some(hold) = next_busy(table, pass, context, components) {
            return Some(hold);
        }
    }
    None
}
