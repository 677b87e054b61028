// A call of a component by the processor that has it in hand, outside every lock and door.
ghost use Rattle.std.specs.Prelude.{◌≡◌, Some};
ghost use Rattle.cy_comp.specs.Calls.{last_outcome};
ghost use Rattle.wake_core.specs.declared.phase.Phase.TheVariants.{Running, Stopping, Done};
ghost use Rattle.cy_table.specs.Calls.{Stays, IsStepped, ShowsTheSame, routine_of, to_step};
ghost use Rattle.cy_run.specs.Passes.{IsMadeOf, IsFree, IsInPhase};
ghost use Rattle.cy_run.specs.private.Serving.{IsReady, HoldsNone, MaySendOut, IsSent, IsEnding};
ghost use Rattle.cy_run.specs.private.Serving.{IsSentOut};

use crate::deliver::{deliver, triggered_by};
use crate::{Gate, Idle};
use cy_comp::{Outcome, State, Wiring};
use cy_msg::Tuple;
use cy_table::{FlagTable, Hold, Pass};
use std::sync::Wait;
use wake_core::{holds, state_of};

// Resumes the READY croutine in hand, and gives it back.
pub(crate) fn serve<G: Gate, R: Wait>(
    rt: &R,
    table: &FlagTable,
    pass: &mut Pass,
    mut hold: Hold,
    idle: &Idle,
    wiring: &Wiring,
    gate: &G,
)
    requires made { IsMadeOf table.now wiring.now.plans }
    requires ready { IsReady table.now pass.old hold }
    ensures same { Stays table.now pass.old pass.new }
    ensures free { IsFree table.now pass.new }
{
    resume(rt, table, pass, &mut hold, idle, wiring, gate);
    table.release(pass, hold);
}

// Sends the output that was held back, where there is one; else calls the component on what a fetch
// finds, unless it is stopped. Then it stores what the croutine is to do next.
fn resume<G: Gate, R: Wait>(
    rt: &R,
    table: &FlagTable,
    pass: &mut Pass,
    hold: &mut Hold,
    idle: &Idle,
    wiring: &Wiring,
    gate: &G,
)
    requires made { IsMadeOf table.now wiring.now.plans }
    requires ready { IsReady table.now pass.old hold.old }
    ensures same { Stays table.now pass.old pass.new }
    ensures done { IsInPhase table.now Done pass.new hold.new }
{
    if table.resume(pass, hold) {
        return end_stopped(rt, table, pass, hold, idle, wiring);
    }
    match hold.token() {
        Some(_) => {
            idle.wake(hold.component());
            send(rt, table, pass, hold, idle, wiring);
            table.yield_as(pass, hold, State::Ready);
        }
        None => call(rt, table, pass, hold, idle, wiring, gate),
    }
}

// Ends a croutine that is stopped, once the output was sent that was held back. As one that ended
// of itself, it sleeps for ever.
fn end_stopped<R: Wait>(
    rt: &R,
    table: &FlagTable,
    pass: &mut Pass,
    hold: &mut Hold,
    idle: &Idle,
    wiring: &Wiring,
)
    requires made { IsMadeOf table.now wiring.now.plans }
    requires stopping { IsInPhase table.now Stopping pass.old hold.old }
    ensures same { Stays table.now pass.old pass.new }
    ensures done { IsInPhase table.now Done pass.new hold.new }
{
    send_last(rt, table, pass, hold, idle, wiring);
    idle.sleep(hold.component(), u64::MAX);
    table.yield_as(pass, hold, State::Finished);
}

// Sends the output that was held back, where there is one.
fn send_last<R: Wait>(
    rt: &R,
    table: &FlagTable,
    pass: &mut Pass,
    hold: &mut Hold,
    idle: &Idle,
    wiring: &Wiring,
)
    requires made { IsMadeOf table.now wiring.now.plans }
    requires stopping { IsInPhase table.now Stopping pass.old hold.old }
    ensures same { Stays table.now pass.old pass.new }
    ensures ending { IsEnding table.now pass.new hold.new }
{
    if hold.token().is_some() {
        send(rt, table, pass, hold, idle, wiring);
    }
}

// Fetches, and calls the component on what was found.
fn call<G: Gate, R: Wait>(
    rt: &R,
    table: &FlagTable,
    pass: &mut Pass,
    hold: &mut Hold,
    idle: &Idle,
    wiring: &Wiring,
    gate: &G,
)
    requires made { IsMadeOf table.now wiring.now.plans }
    requires none_held { HoldsNone table.now pass.old hold.old }
    ensures same { Stays table.now pass.old pass.new }
    ensures done { IsInPhase table.now Done pass.new hold.new }
{
    table.ask(pass, hold);
    match table.fetch(rt, pass, hold) {
        Some(tuple) => {
            let end = end_of(hold.component(), wiring);
            close_if(matches!(end, End::Fetch), hold.component(), idle);
            let outcome = step(rt, hold, &tuple, gate);
            follow(rt, table, pass, hold, &outcome, idle, wiring);
            close_if(matches!(end, End::Call), hold.component(), idle);
        }
        None => {
            idle.close(hold.component());
            table.yield_as(pass, hold, State::DataWait);
        }
    }
}

// When a component that has fetched a tuple has nothing more to do: at once, where its buffer keeps
// no other one and its output triggers none; when its output was sent; or when it fetches in vain.
#[derive(Clone, Copy)]
enum End {
    Fetch,
    Call,
    Vain,
}

fn end_of(component: u32, wiring: &Wiring) -> End {
    match wiring.plans.as_slice().get(component as usize) {
        Some(plan) if plan.queue == 1 => {
            if triggered_by(plan.out, wiring) == 0 {
                End::Fetch
            } else {
                End::Call
            }
        }
        _ => End::Vain,
    }
}

// A component has nothing more to do, if it has ended.
fn close_if(ended: bool, component: u32, idle: &Idle) {
    if ended {
        idle.close(component);
    }
}

// Steps the component, once the gate let it pass.
fn step<G: Gate, R: Wait>(rt: &R, hold: &mut Hold, tuple: &Tuple, gate: &G) -> Outcome
    requires { to_step hold.old ≡ Some tuple.now }
    ensures same { ShowsTheSame hold.old hold.new }
    ensures stepped { IsStepped hold.new }
    ensures outcome { last_outcome (routine_of hold.new).kind (routine_of hold.new).calls
        ≡ Some result }
{
    gate.before_call(rt, hold.component(), hold.calls(), hold);
    hold.step(tuple)
}

// Sends the output of the call, where it is not held back, and stores what the outcome says that
// the croutine is to do next.
fn follow<R: Wait>(
    rt: &R,
    table: &FlagTable,
    pass: &mut Pass,
    hold: &mut Hold,
    outcome: &Outcome,
    idle: &Idle,
    wiring: &Wiring,
)
    requires made { IsMadeOf table.now wiring.now.plans }
    requires running { IsInPhase table.now Running pass.old hold.old }
    requires outcome { last_outcome (routine_of hold.old).kind (routine_of hold.old).calls
        ≡ Some outcome.now }
    ensures same { Stays table.now pass.old pass.new }
    ensures done { IsInPhase table.now Done pass.new hold.new }
{
    send_out(rt, table, pass, hold, outcome, idle, wiring);
    sleep_after(outcome, hold.component(), idle);
    table.yield_as(pass, hold, state_of(outcome));
}

// A component that holds its output sleeps until the clock is past that time, and one that has
// ended for ever.
fn sleep_after(outcome: &Outcome, component: u32, idle: &Idle) {
    match *outcome {
        Outcome::Emit(_) => {}
        Outcome::Hold { until, .. } => idle.sleep(component, until),
        Outcome::Last(_) => idle.sleep(component, u64::MAX),
    }
}

// Sends the output of the call, where there is one that isn't held back.
fn send_out<R: Wait>(
    rt: &R,
    table: &FlagTable,
    pass: &mut Pass,
    hold: &mut Hold,
    outcome: &Outcome,
    idle: &Idle,
    wiring: &Wiring,
)
    requires made { IsMadeOf table.now wiring.now.plans }
    requires running { IsInPhase table.now Running pass.old hold.old }
    requires outcome { last_outcome (routine_of hold.old).kind (routine_of hold.old).calls
        ≡ Some outcome.now }
    ensures same { Stays table.now pass.old pass.new }
    ensures sent { IsSentOut table.now outcome.now pass.new hold.new }
{
    if !holds(outcome) && hold.token().is_some() {
        send(rt, table, pass, hold, idle, wiring);
    }
}

// Sends the output of the croutine in hand that waits, and delivers it.
fn send<R: Wait>(
    rt: &R,
    table: &FlagTable,
    pass: &mut Pass,
    hold: &mut Hold,
    idle: &Idle,
    wiring: &Wiring,
)
    requires made { IsMadeOf table.now wiring.now.plans }
    requires waits { MaySendOut table.now pass.old hold.old }
    ensures same { Stays table.now pass.old pass.new }
    ensures sent { IsSent table.now pass.old pass.new hold.new }
{
    let token = table.send(rt, pass, hold);
    deliver(rt, table, pass, token, idle, wiring);
}
