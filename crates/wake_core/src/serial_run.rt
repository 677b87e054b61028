// The serial run: what the events come to where one thread does them all.
ghost use Rattle.std.specs.Prelude.{ℕ, ◌≡◌, ◌≤◌, ◌<◌, true, false, Option, Some, None, length};
ghost use Rattle.cy_msg.specs.Placement.{scan_of};
ghost use Rattle.cy_comp.specs.declared.call.Call.{Call};
ghost use Rattle.wake_core.specs.Plain.{Plain, Stop, Ready, Known, Checked, Stopping, Running};
ghost use Rattle.wake_core.specs.Plain.{lists, last_of, unsent_of, stops};
ghost use Rattle.wake_core.specs.Events.{Ticks, after_stop};
ghost use Rattle.wake_core.specs.Settle.{Settles};
ghost use Rattle.wake_core.specs.Serial.{SerialRun, Raised, last_clock, next};
ghost use Rattle.wake_core.specs.LawfulRun.{Quiet, LawfulRun};
ghost use Rattle.wake_core.specs.Rest.{IsAtRest, IsScanOf, MayPlay, MayFinish, StaysMade};
ghost use Rattle.wake_core.specs.Rest.{StaysFixed, Heeds, run_shown};
ghost use Rattle.wake_core.specs.Turns.{PlaysOne, MayPut, Passes, Finds, IsInHand, MaySendOut};
ghost use Rattle.wake_core.specs.Turns.{OutputDelivered, SendsOut, IsCalledFrom, Resumes, Turns};
ghost use Rattle.wake_core.specs.Turns.{IsSettled, MayPlayOn, PlaysOn, place_of};
ghost use Rattle.wake_core.specs.Way.{IsLed};
ghost use Rattle.wake_core.specs.WorldOf.{plain_of, to_step};
ghost use Rattle.wake_core.specs.WorldCalls.{in_hand, phase_sent, IsStepped, MayStop};

use crate::World;
use crate::outcome::{holds, state_of};
use cy_comp::{Outcome, State, outcomes_are_answers};
use cy_fuse::fetches_find;
use cy_msg::{ContextPlan, Placement, PlayList, Token};

/// Plays the messages of a list, one after another, in a world that was made for it and in which
/// nothing has happened. After each message the croutines are resumed in the order of the scan as
/// long as one is READY; after the last one the clock is set to its greatest value. A stop is
/// raised when as many messages as it says were played. All of it is done by events, so that each
/// world on the way is safe. It takes no memory.
pub fn serial(world: &mut World, list: &PlayList, placement: &Placement)
    requires { MayPlay (plain_of world.old) list.now.tokens (scan_of placement.now.contexts) }
    ensures run { SerialRun (plain_of world.old).routes (plain_of world.old).stop
        (scan_of placement.now.contexts) list.now.tokens (run_shown (plain_of world.new)) }
    ensures lawful { LawfulRun list.now.tokens (plain_of world.old).routes
        (plain_of world.old).stop (plain_of world.new) }
    ensures stays { StaysMade (plain_of world.old) (plain_of world.new) }
    ensures led { IsLed (plain_of world.old) (plain_of world.new) }
{
    fetches_find();
    outcomes_are_answers();
    let contexts = placement.contexts.as_slice();
    let tokens = list.tokens.as_slice();
    let place = stop_place(world, tokens.len());
    play_all(world, tokens, 0, place, contexts);
    raise(world);
    play_all(world, tokens, place, tokens.len(), contexts);
    end_clock(world);
    settle(world, contexts);
}

/// Resumes the croutines of a world in which all was played, in the order of the scan, as long as
/// one is READY, by events. It takes no memory.
pub fn finish(world: &mut World, placement: &Placement)
    requires { MayFinish (plain_of world.old) (scan_of placement.now.contexts) }
    ensures settles { (stop : Option Raised) → Heeds stop (plain_of world.old)
        → Settles (next (plain_of world.old).routes stop (scan_of placement.now.contexts))
        (run_shown (plain_of world.old)) (run_shown (plain_of world.new)) }
    ensures quiet { Quiet (plain_of world.new) }
    ensures stays { StaysFixed (plain_of world.old) (plain_of world.new) }
    ensures led { IsLed (plain_of world.old) (plain_of world.new) }
{
    fetches_find();
    outcomes_are_answers();
    settle(world, placement.contexts.as_slice());
}

// How many messages of so many are played before the stop is raised: all, where there is none.
fn stop_place(world: &World, count: usize) -> usize
    ensures { result ≡ place_of (plain_of world.now).stop count }
{
    match world.given() {
        Some(stop) => stop.after as usize,
        None => count,
    }
}

// Raises the stop, if there is one.
fn raise(world: &mut World)
    requires { (s : Stop) → (plain_of world.old).stop ≡ Some s → MayStop (plain_of world.old) }
    ensures none { (plain_of world.old).stop ≡ None → plain_of world.new ≡ plain_of world.old }
    ensures raised { (s : Stop) → (plain_of world.old).stop ≡ Some s
        → plain_of world.new ≡ after_stop (plain_of world.old) }
{
    if world.given().is_some() {
        world.stop(0);
    }
}

// Sets the clock to its greatest value.
fn end_clock(world: &mut World)
    ensures { Ticks last_clock (plain_of world.old) (plain_of world.new) }
{
    let _now = world.clock();
    world.tick(0, u64::MAX);
}

// Plays the messages from one place to another, one after another, and what each starts settles.
fn play_all(world: &mut World, tokens: &[Token], from: usize, to: usize, contexts: &[ContextPlan])
    requires may { MayPlayOn tokens.now from to (plain_of world.old) }
    requires scan { IsScanOf (length (plain_of world.old).routes) (scan_of contexts.now) }
    requires order { from ≤ to }
    ensures { PlaysOn (scan_of contexts.now) tokens.now from to (plain_of world.old)
        (plain_of world.new) }
{
    for index in from..to {
        play(world, &tokens[index]);
        settle(world, contexts);
    }
}

// Plays the next message.
fn play(world: &mut World, token: &Token)
    requires rest { IsAtRest (plain_of world.old) }
    requires later { (plain_of world.old).clock ≤ token.now.time }
    requires next { MayPut token.now (plain_of world.old) }
    ensures { PlaysOne token.now (plain_of world.old) (plain_of world.new) }
{
    world.tick(0, token.time);
    world.tape(0, *token);
    world.deliver(token);
}

// Resumes croutines until none is READY.
fn settle(world: &mut World, contexts: &[ContextPlan])
    requires rest { IsAtRest (plain_of world.old) }
    requires scan { IsScanOf (length (plain_of world.old).routes) (scan_of contexts.now) }
    ensures { IsSettled (scan_of contexts.now) (plain_of world.old) (plain_of world.new) }
{
    while turn(world, contexts) {}
}

// Resumes the first croutine that is READY, and parks it. Whether there is one.
fn turn(world: &mut World, contexts: &[ContextPlan]) -> bool
    requires rest { IsAtRest (plain_of world.old) }
    requires known { (c : ℕ) → lists c (scan_of contexts.now) ≡ true
        → c < length (plain_of world.old).routes }
    ensures turns { result ≡ true
        → Turns (scan_of contexts.now) (plain_of world.old) (plain_of world.new) }
    ensures ends { result ≡ false
        → Passes (scan_of contexts.now) (plain_of world.old) (plain_of world.new) }
{
    match first_of_all(world, contexts) {
        Some(component) => {
            resume(world, component);
            world.park(component);
            true
        }
        None => false,
    }
}

// Takes the first croutine of the contexts that is READY.
fn first_of_all(world: &mut World, contexts: &[ContextPlan]) -> Option<u32>
    requires rest { IsAtRest (plain_of world.old) }
    requires known { (c : ℕ) → lists c (scan_of contexts.now) ≡ true
        → c < length (plain_of world.old).routes }
    ensures found { (c : ℕ) → result ≡ Some c
        → Finds (scan_of contexts.now) c (plain_of world.old) (plain_of world.new) }
    ensures none { result ≡ None
        → Passes (scan_of contexts.now) (plain_of world.old) (plain_of world.new) }
{
    for context in contexts {
        let found = first_ready(world, context.order.as_slice());
        if found.is_some() {
            return found;
        }
    }
    None
}

// Takes the first croutine of an order that is READY.
fn first_ready(world: &mut World, order: &[u32]) -> Option<u32>
    requires rest { IsAtRest (plain_of world.old) }
    requires known { (c : ℕ) → lists c order.now ≡ true → c < length (plain_of world.old).routes }
    ensures found { (c : ℕ) → result ≡ Some c
        → Finds order.now c (plain_of world.old) (plain_of world.new) }
    ensures none { result ≡ None → Passes order.now (plain_of world.old) (plain_of world.new) }
{
    for component in order {
        if world.take(*component) {
            return Some(*component);
        }
    }
    None
}

// Resumes the READY croutine in hand, and gives it back: it ends where it is stopped.
fn resume(world: &mut World, component: u32)
    requires held { IsInHand component Known (plain_of world.old) }
    requires ready { (plain_of world.old).states component ≡ Ready }
    ensures { Resumes component (plain_of world.old) (plain_of world.new) }
{
    if world.check(0) {
        end(world, component);
    } else {
        go_on(world, component);
    }
}

// Sends the output that the stopped croutine in hand holds back, if there is one, and ends it.
fn end(world: &mut World, component: u32)
    requires held { IsInHand component Stopping (plain_of world.old) }
    ensures { Resumes component (plain_of world.old) (plain_of world.new) }
{
    world.sound();
    match world.unsent(component) {
        Some(token) => send_last(world, component, token),
        None => world.give_back(State::Finished),
    }
}

// Sends the output that the stopped croutine in hand holds back, and ends it.
fn send_last(world: &mut World, component: u32, token: Token)
    requires held { IsInHand component Stopping (plain_of world.old) }
    requires unsent { unsent_of (plain_of world.old) component ≡ Some token }
    ensures { Resumes component (plain_of world.old) (plain_of world.new) }
{
    send(world, token);
    world.give_back(State::Finished);
}

// Resumes the croutine in hand that isn't stopped.
fn go_on(world: &mut World, component: u32)
    requires held { IsInHand component Checked (plain_of world.old) }
    requires ready { (plain_of world.old).states component ≡ Ready }
    requires unstopped { stops (plain_of world.old).stop (plain_of world.old).raised component
        ≡ false }
    ensures { Resumes component (plain_of world.old) (plain_of world.new) }
{
    world.sound();
    match world.unsent(component) {
        Some(token) => send_held(world, component, token),
        None => call(world, component),
    }
}

// Sends the output that the READY croutine in hand held back, and gives it back.
fn send_held(world: &mut World, component: u32, token: Token)
    requires held { IsInHand component Checked (plain_of world.old) }
    requires ready { (plain_of world.old).states component ≡ Ready }
    requires unsent { unsent_of (plain_of world.old) component ≡ Some token }
    requires unstopped { stops (plain_of world.old).stop (plain_of world.old).raised component
        ≡ false }
    ensures { Resumes component (plain_of world.old) (plain_of world.new) }
{
    send(world, token);
    world.give_back(State::Ready);
}

// Fetches for the READY croutine in hand, calls its component on what is found, and gives it back.
fn call(world: &mut World, component: u32)
    requires held { IsInHand component Checked (plain_of world.old) }
    requires ready { (plain_of world.old).states component ≡ Ready }
    requires none_held { unsent_of (plain_of world.old) component ≡ None }
    requires unstopped { stops (plain_of world.old).stop (plain_of world.old).raised component
        ≡ false }
    ensures { Resumes component (plain_of world.old) (plain_of world.new) }
{
    match world.call(component) {
        Some(outcome) => follow(world, component, &outcome),
        None => world.give_back(State::DataWait),
    }
}

// Sends the output of the component that was called, where it is not held back, and gives it back
// as the outcome says.
fn follow(world: &mut World, component: u32, outcome: &Outcome)
    requires held { IsInHand component Running (plain_of world.old) }
    requires stepped { to_step world.old component ≡ None }
    requires outcome { last_of (plain_of world.old).routes (plain_of world.old).calls component
        ≡ Some outcome.now }
    ensures { (w : Plain) (x : Call) → IsCalledFrom component x w (plain_of world.old)
        → Resumes component w (plain_of world.new) }
{
    fetches_find();
    send_out(world, component, outcome);
    world.give_back(state_of(outcome));
}

// Sends the output of the component that was called, where there is one that isn't held back.
fn send_out(world: &mut World, component: u32, outcome: &Outcome)
    requires held { IsInHand component Running (plain_of world.old) }
    requires stepped { to_step world.old component ≡ None }
    requires outcome { last_of (plain_of world.old).routes (plain_of world.old).calls component
        ≡ Some outcome.now }
    ensures sends { SendsOut component (plain_of world.old) (plain_of world.new) }
    ensures steps { to_step world.new ≡ to_step world.old }
{
    if holds(outcome) {
        return;
    }
    if let Some(token) = world.unsent(component) {
        send(world, token);
    }
}

// Sends an output of the croutine in hand, and delivers it.
#[inline(always)]
fn send(world: &mut World, token: Token)
    requires may { MaySendOut token (plain_of world.old) }
    requires stepped { IsStepped 0 (plain_of world.old) (to_step world.old) }
    ensures sends { OutputDelivered (in_hand 0 (plain_of world.old))
        (phase_sent ((plain_of world.old).hands 0)) token (plain_of world.old)
        (plain_of world.new) }
    ensures steps { to_step world.new ≡ to_step world.old }
{
    world.tape(0, token);
    world.deliver(&token);
}
