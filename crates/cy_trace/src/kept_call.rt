// A call of a trace, kept in little memory.
ghost use Rattle.std.specs.Prelude.{◌≡◌, ◌++◌, ◌∷◌, [], true, length, IfSome};
ghost use Rattle.cy_trace.specs.private.KeptCalls.{Begins, HasNumbers, call_in, output_by};

use crate::added::is_added;
use crate::{Seqs, TraceCall, TraceOutput};

// The greatest place of a number.
const MOST_PLACE: usize = 4_294_967_295;

/// What a call put out.
#[derive(Clone, Copy)]
pub(crate) enum Put {
    /// Nothing.
    Nothing,
    /// A message that stands for no whole number.
    Plain,
    /// A message that stands for one.
    Whole,
}

/// A call, without its numbers of messages: those of all calls stand in one list, behind one
/// another. With them it takes some 50 bytes, where a `TraceCall` takes 80.
#[derive(Clone, Copy)]
pub(crate) struct KeptCall {
    pub position: u64,
    pub tail: u64,
    /// The time of what it put out, and the whole number that this stands for; 0 in place of each
    /// where there is none.
    pub time: u64,
    pub value: i64,
    /// Where its numbers begin in the list: first those of the messages that it took, behind these
    /// the number of what it put out, or 0.
    pub first: u32,
    /// How many messages it took.
    pub count: u8,
    pub put: Put,
}

// An output by its kind, its number, its time and its value.
fn parts_of(out: Option<TraceOutput>) -> (Put, u32, u64, i64)
    ensures { output_by result.0 result.1 result.2 result.3 ≡ out }
{
    match out {
        None => (Put::Nothing, 0, 0, 0),
        Some(out) => match out.value {
            None => (Put::Plain, out.seq, out.time, 0),
            Some(value) => (Put::Whole, out.seq, out.time, value),
        },
    }
}

// The output of these parts.
fn output_by(put: Put, seq: u32, time: u64, value: i64) -> Option<TraceOutput>
    ensures { result ≡ output_by put seq time value }
{
    let value = match put {
        Put::Nothing => return None,
        Put::Plain => None,
        Put::Whole => Some(value),
    };
    Some(TraceOutput { seq, time, value })
}

// Whether there was memory to put the numbers of a call into the list.
#[inline(always)]
fn are_put(numbers: &mut Vec<u32>, seqs: &[u32], seq: u32) -> bool
    ensures begins { Begins numbers.old.items numbers.new.items }
    ensures put { result ≡ true
        → numbers.new.items ≡ numbers.old.items ++ seqs.now ++ seq ∷ [] }
{
    match numbers.extend_from_slice(seqs) {
        Ok(()) => is_added(numbers, seq),
        Err(_) => false,
    }
}

/// Keeps a call, with its numbers behind those in the list, or nothing where there is no memory:
/// then numbers of no call may stand at the end of the list.
#[inline(always)]
pub(crate) fn kept_of(numbers: &mut Vec<u32>, call: &TraceCall) -> Option<KeptCall>
    ensures begins { Begins numbers.old.items numbers.new.items }
    ensures has { IfSome result (HasNumbers numbers.new.items) }
    ensures kept { IfSome result (λ k. call_in numbers.new.items k ≡ call.now) }
{
    let first = numbers.len();
    if first > MOST_PLACE {
        return None;
    }
    let seqs = call.seqs.as_slice();
    let (put, seq, time, value) = parts_of(call.out);
    if !are_put(numbers, seqs, seq) {
        return None;
    }
    Some(KeptCall {
        position: call.position,
        tail: call.tail,
        time,
        value,
        first: first as u32,
        count: seqs.len() as u8,
        put,
    })
}

/// The call that is kept so, with its numbers in a list.
#[inline(always)]
pub(crate) fn call_in(numbers: &[u32], kept: &KeptCall) -> TraceCall
    requires { HasNumbers numbers.now kept.now }
    ensures { result ≡ call_in numbers.now kept.now }
{
    let first = kept.first as usize;
    let end = first + kept.count as usize;
    TraceCall {
        position: kept.position,
        tail: kept.tail,
        seqs: Seqs::of(&numbers[first..end]),
        out: output_by(kept.put, numbers[end], kept.time, kept.value),
    }
}
