// Judges a trace.
ghost use Rattle.std.specs.Prelude.{ℕ, ◌≡◌, ◌≤◌, [], Some, true, length, map, slice_get};
ghost use Rattle.cy_msg.specs.declared.token.Token.{Token};
ghost use Rattle.cy_msg.specs.Once.{IsOnce};
ghost use Rattle.wake_core.specs.Plain.{Plain};
ghost use Rattle.wake_core.specs.Serial.{last_clock};
ghost use Rattle.wake_core.specs.WorldOf.{stop_in};
ghost use Rattle.cy_trace.specs.TraceOfRun.{tape_entry};
ghost use Rattle.cy_verify.specs.Verdict.{Task, MayJudge, Judges};
ghost use Rattle.cy_verify.specs.private.Ending.{call_total};
ghost use Rattle.cy_verify.specs.private.Judging.{IsFollowed};
ghost use Rattle.cy_verify.specs.private.Led.{IsLed};
ghost use Rattle.cy_verify.specs.private.Walking.{task_in, IsWalked};

use crate::ending::is_allowed;
use crate::follower::Follower;
use crate::heads::is_headed;
use crate::walk::Walk;
use crate::{Told, Verdict, VerifyError};
use cy_comp::{Wiring, outcomes_are_answers};
use cy_fuse::fetches_find;
use cy_msg::{Items, PlayList, Stop};
use cy_trace::Trace;
use std::alloc::Global;
use wake_core::laws;

/// Whether a trace is that of a lawful run of a play list over the components of a wiring, with a
/// stop or none: then also the tape of the run, and how many calls it has. `counts` has the number
/// of messages that are played on each channel. The only error is want of memory.
pub fn verify(
    alloc: Global,
    wiring: &Wiring,
    counts: &[u32],
    list: &PlayList,
    stop: Option<Stop>,
    trace: &Trace,
) -> Result<Verdict, VerifyError>
    requires { MayJudge record {
      names = wiring.now.names;
      plans = wiring.now.plans;
      counts = counts.now;
      tokens = list.now.tokens;
      shadowed = list.now.shadowed;
      stop = stop;
    } }
    ensures { Judges record {
      names = wiring.now.names;
      plans = wiring.now.plans;
      counts = counts.now;
      tokens = list.now.tokens;
      shadowed = list.now.shadowed;
      stop = stop;
    } trace.now result }
{
    if !is_headed(wiring, list, trace) {
        return Ok(Verdict::Unlawful);
    }
    // What is known of channels, of components, of fetches and of times; nothing is done here.
    wiring.names.count();
    laws::wiring();
    fetches_find();
    outcomes_are_answers();
    times_fit(list);
    let mut walk = Walk::new(alloc, wiring, counts, stop)?;
    if !follows(&mut walk, wiring, list, trace, stop) {
        drop(walk);
        return Ok(Verdict::Unlawful);
    }
    Ok(Verdict::Lawful(told_of(walk)))
}

// Follows a trace to its end: whether it may be that of a lawful run.
fn follows(
    walk: &mut Walk,
    wiring: &Wiring,
    list: &PlayList,
    trace: &Trace,
    stop: Option<Stop>,
) -> bool
    requires may { MayJudge (task_in wiring.now list.now walk.old) }
    requires once { IsOnce wiring.now.names }
    requires walked { IsWalked (task_in wiring.now list.now walk.old) trace.now.components
        walk.old }
    requires empty { walk.old.tape.items ≡ [] }
    requires told { length trace.now.components ≡ length wiring.now.plans }
    requires stop { stop ≡ stop_in walk.old.fixed }
    ensures followed { result ≡ true
        → IsFollowed (task_in wiring.now list.now walk.old) trace.now walk.new }
    ensures same { walk.new.fixed ≡ walk.old.fixed }
    ensures leads { (w : Plain)
        → IsLed (task_in wiring.now list.now walk.old) trace.now.components w walk.old
        → map (tape_entry wiring.now.names) w.tape ≡ trace.now.tape → result ≡ true }
{
    if !walk.put_all(wiring, list, trace) {
        return false;
    }
    if !walk.finish(wiring, list, trace, stop) {
        return false;
    }
    is_allowed(walk, wiring, trace.components.as_slice(), stop)
}

// What is asked of the run that was followed: its tape, and how many calls it has.
fn told_of(walk: Walk) -> Told
    ensures tape { result.tape ≡ walk.tape.items }
    ensures calls { result.calls ≡ call_total walk.followers.items }
{
    let Walk {
        followers,
        tape,
        played: _,
        spent,
        fixed,
    } = walk;
    let calls = count_calls(followers.as_slice());
    drop(followers);
    drop(spent);
    drop(fixed);
    Told {
        tape: Items::new(tape),
        calls,
    }
}

// How many calls these components made.
fn count_calls(followers: &[Follower]) -> u128
    ensures { result ≡ call_total followers.now }
{
    let mut count = 0;
    for component in 0..followers.len() {
        count += followers[component].routine.call_count() as u128;
    }
    count
}

// No message has a time past the last one of the clock.
fn times_fit(list: &PlayList)
    ensures { (n : ℕ) (m : Token) → slice_get list.now.tokens n ≡ Some m → m.time ≤ last_clock }
{
    let tokens = list.tokens.as_slice();
    let Some(last) = tokens.last() else {
        return;
    };
    fits(last.time);
}

// A time is no later than the last one of the clock.
fn fits(time: u64)
    ensures { time ≤ last_clock }
{}
