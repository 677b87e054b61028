// The calls of a component of a trace.
ghost use Rattle.std.specs.Prelude.{◌≡◌, []};

use crate::TraceCall;
use crate::added::{is_added, with_room};
use crate::kept_call::{KeptCall, call_in, kept_of};
use std::alloc::{AllocError, Global};
use std::marker::Model;

// The most numbers that are kept of a call: those of its messages, and that of its output.
const MOST_NUMBERS: usize = 5;

/// The calls of a component, in order. Contracts see them as a list.
#[derive(Drop)]
pub struct Calls {
    kept: Vec<KeptCall>,
    // The numbers of the messages of all calls.
    numbers: Vec<u32>,
}

impl Model for Calls {
    ghost use Rattle.std.specs.Prelude.{List};
    ghost use Rattle.std.specs.List.{All};
    ghost use Rattle.cy_trace.specs.declared.kept_call.KeptCall.{KeptCall};
    ghost use Rattle.cy_trace.specs.declared.trace.TraceCall.{TraceCall};
    ghost use Rattle.cy_trace.specs.private.KeptCalls.{HasNumbers, calls_in};

    ghost Value = { List TraceCall };

    ghost view = { λ c. calls_in c.numbers.items c.kept.items };

    ghost invariant = { λ c. All (λ (k : KeptCall). HasNumbers c.numbers.items k) c.kept.items };
}

impl Calls {
    ghost use Rattle.std.specs.Prelude.{◌≡◌, ◌++◌, ◌∷◌, [], length, slice_get, true, false};
    ghost use Rattle.std.specs.Prelude.{IfOk};

    /// None yet, with room for so many, where there is memory.
    pub fn with_room(alloc: Global, most: usize) -> Self
        ensures { result ≡ [] }
    {
        Calls {
            kept: with_room(alloc, most),
            numbers: with_room(alloc, most.saturating_mul(MOST_NUMBERS)),
        }
    }

    // Whether there was memory to add a call.
    #[inline(always)]
    pub(crate) fn is_added(&mut self, call: &TraceCall) -> bool
        ensures added { result ≡ true → self.new ≡ self.old ++ call.now ∷ [] }
        ensures same { result ≡ false → self.new ≡ self.old }
    {
        match kept_of(&mut self.numbers, call) {
            Some(kept) => is_added(&mut self.kept, kept),
            None => false,
        }
    }

    /// The same with one more call.
    pub fn with(self, call: TraceCall) -> Result<Calls, AllocError>
        ensures { IfOk result (λ c. c ≡ self ++ call ∷ []) }
    {
        let mut calls = self;
        if calls.is_added(&call) {
            Ok(calls)
        } else {
            Err(AllocError)
        }
    }

    /// How many there are.
    #[inline(always)]
    pub fn count(&self) -> usize
        ensures { result ≡ length self.now }
    {
        self.kept.len()
    }

    /// The call at a place, counted from 0, where there is one.
    #[inline(always)]
    pub fn get(&self, place: usize) -> Option<TraceCall>
        ensures { result ≡ slice_get self.now place }
    {
        if place >= self.kept.len() {
            return None;
        }
        let kept = self.kept[place];
        Some(call_in(self.numbers.as_slice(), &kept))
    }
}
