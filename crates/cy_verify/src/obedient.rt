// Whether a stop was obeyed.
ghost use Rattle.std.specs.Prelude.{ℕ, ◌≡◌, ◌≤◌, ◌<◌, nat_lt, ◌||◌, Option, Some, None, length};
ghost use Rattle.std.specs.Prelude.{is_some, slice_get, slice_index, filter, List, ◌∷◌, []};
ghost use Rattle.std.specs.Bool.{Decides};
ghost use Rattle.cy_msg.specs.declared.token.Token.{Token};
ghost use Rattle.cy_msg.specs.Tokens.{on_channel, IsNumbered};
ghost use Rattle.cy_comp.specs.declared.call.Call.{Call};
ghost use Rattle.wake_core.specs.Run.{routes_of, writes_from};
ghost use Rattle.cy_trace.specs.TraceOfRun.{trace_calls};
ghost use Rattle.cy_trace.specs.declared.trace.TraceCall.{TraceCall};
ghost use Rattle.cy_verify.specs.private.Passes.{IsEarly, late_seqs, TakesFrom};
ghost use Rattle.cy_verify.specs.private.Passes.{HasOneLate};

use cy_comp::Plan;
use cy_msg::Token;
use cy_trace::{Calls, TraceCall};

// The most readers that a component has.
const MOST_READERS: usize = 4;

// Whether a component writes a channel.
fn is_written(plans: &[Plan], channel: u32) -> bool
    ensures { result ≡ is_some (writes_from 0 (routes_of plans.now) channel) }
{
    plans.iter().any(|plan| plan.out == channel)
}

// How much of the tape stands before the played message that comes after so many.
fn early_part(plans: &[Plan], after: u32, tape: &[Token]) -> usize
    ensures { IsEarly (routes_of plans.now) after tape.now result }
{
    let mut played = 0;
    for place in 0..tape.len() {
        if is_written(plans, tape[place].channel) {
            continue;
        }
        if played == after as usize {
            return place;
        }
        played += 1;
    }
    tape.len()
}

// How many messages of a channel stand there.
fn count_of(channel: u32, early: &[Token]) -> usize
    ensures { result ≡ length (on_channel channel early.now) }
{
    early
        .iter()
        .filter(|token| token.channel == channel)
        .count()
}

// How many messages of a reader's channel stand there; 0 where there is no such reader.
fn count_on(readers: &[u32], reader: usize, early: &[Token]) -> usize
    ensures { (channel : ℕ) → slice_get readers.now reader ≡ Some channel
        → result ≡ length (on_channel channel early.now) }
{
    match readers.get(reader) {
        Some(channel) => count_of(*channel, early),
        None => 0,
    }
}

// Whether a call has a late message in its tuple, where so many of each reader are early.
fn has_late(call: &TraceCall, before: [usize; MOST_READERS]) -> bool
    ensures { result ≡ late_seqs 0 call.now.seqs before }
{
    let seqs = call.seqs.as_slice();
    for reader in 0..seqs.len() {
        if seqs[reader] as usize > before[reader] {
            return true;
        }
    }
    false
}

// How many calls have a late message in their tuples, where so many of each reader are early.
fn count_late(told: &Calls, before: [usize; MOST_READERS]) -> usize
    ensures { result ≡ length
        (filter (λ (x : TraceCall). late_seqs 0 x.seqs before) told.now) }
{
    let mut late = 0;
    for place in 0..told.count() {
        let Some(call) = told.get(place) else {
            unreachable!()
        };
        if !has_late(&call, before) {
            continue;
        }
        late += 1;
    }
    late
}

// How many of each reader's messages stand in a part of the tape.
fn counts_of(readers: &[u32], early: &[Token]) -> [usize; MOST_READERS]
    ensures { (j channel : ℕ) → j < 4 → slice_get readers.now j ≡ Some channel
        → slice_index result j ≡ length (on_channel channel early.now) }
{
    [
        count_on(readers, 0, early),
        count_on(readers, 1, early),
        count_on(readers, 2, early),
        count_on(readers, 3, early),
    ]
}

/// Whether a component has at most one call with a late message, of which these calls are told.
pub(crate) fn obeys(
    plans: &[Plan],
    after: u32,
    readers: &[u32],
    told: &Calls,
    tape: &[Token],
) -> bool
    requires few { length readers.now ≤ 4 }
    requires numbered { IsNumbered tape.now }
    ensures { (calls : List Call) → trace_calls 0 calls ≡ told.now
        → TakesFrom readers.now calls tape.now
        → Decides result (HasOneLate (routes_of plans.now) after calls tape.now) }
{
    let early = &tape[..early_part(plans, after, tape)];
    count_late(told, counts_of(readers, early)) <= 1
}
