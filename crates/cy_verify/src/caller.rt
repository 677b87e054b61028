// The routine of a component that is followed.
ghost use Rattle.std.specs.Prelude.{◌≡◌};
ghost use Rattle.cy_comp.specs.Step.{out_of};

use crate::VerifyError;
use crate::made::Made;
use cy_comp::{Body, Call, CompError, Component, Kind, Out, Outcome, State};
use cy_fuse::Cursor;
use cy_msg::Tuple;
use std::alloc::Global;
use std::marker::Model;

/// A component with its state and the output that waits to be sent. Contracts see it as a
/// `RoutineView` with room for as many calls as a world keeps. Of its calls it keeps how many there
/// were: what it was called with is in the trace that is followed.
#[derive(Drop)]
pub(crate) struct Caller {
    body: Body,
    state: State,
    cursor: Cursor,
    count: u64,
    pending: Option<Out>,
    made: Made,
}

impl Model for Caller {
    ghost use Rattle.std.specs.Prelude.{◌-◌};
    ghost use Rattle.cy_comp.specs.Routine.{RoutineView};
    ghost use Rattle.wake_core.specs.declared.entries.TheConstants.{MOST_PLANNED};

    ghost Value = { RoutineView };

    ghost use Rattle.cy_verify.specs.private.Calling.{IsCaller};

    ghost view = { λ c. record {
      kind = c.body.kind;
      state = c.state;
      calls = c.made.list;
      pending = c.pending;
      spare = MOST_PLANNED - c.count;
    } };

    ghost invariant = { λ c. IsCaller c.body c.cursor c.count c.made.list };
}

impl Caller {
    ghost use Rattle.std.specs.Prelude.{◌≡◌, IfOk, IsSome, None, length};
    ghost use Rattle.cy_comp.specs.Calls.{cursor_after};
    ghost use Rattle.cy_comp.specs.Routine.{new_routine, answer_to, MayTake};
    ghost use Rattle.cy_comp.specs.Routine.{taken as after_call};
    ghost use Rattle.wake_core.specs.declared.entries.TheConstants.{MOST_PLANNED};

    /// A component before its first call.
    pub(crate) fn new(alloc: Global, kind: &Kind) -> Result<Self, VerifyError>
        ensures { IfOk result (λ c. c ≡ new_routine kind.now MOST_PLANNED) }
    {
        let body = match Body::new(alloc, kind) {
            Ok(body) => body,
            Err(CompError::Memory) => return Err(VerifyError::Memory),
        };
        Ok(Caller {
            body,
            state: State::Ready,
            cursor: Cursor::new(),
            count: 0,
            pending: None,
            made: Made::nothing(),
        })
    }

    /// Where its next fetch begins.
    #[inline(always)]
    pub(crate) fn cursor(&self) -> Cursor
        ensures { result ≡ cursor_after self.now.calls }
    {
        self.cursor
    }

    /// How many calls it made.
    #[inline(always)]
    pub(crate) fn call_count(&self) -> usize
        ensures { result ≡ length self.now.calls }
    {
        self.count as usize
    }

    /// The output that waits to be sent, or none where none waits.
    #[inline(always)]
    pub(crate) fn pending(&self) -> Option<Out>
        ensures { result ≡ self.now.pending }
    {
        self.pending
    }

    /// It takes the tuple that a fetch found at a position, where there were `tail` tuples, and
    /// calls its component. The output of the call waits to be sent.
    #[inline(always)]
    pub(crate) fn took(&mut self, tuple: Tuple, position: u64, tail: u64) -> Outcome
        requires { MayTake self.old tuple position }
        ensures outcome { result ≡ answer_to self.old tuple }
        ensures taken { self.new ≡ after_call self.old tuple position tail }
    {
        let outcome = self.body.step(&tuple);
        let out = output_of(&outcome);
        self.made = self.made.then(&Call {
            position,
            tail,
            tuple,
            out,
        });
        self.count += 1;
        self.pending = out;
        self.cursor = Cursor::at(position + 1);
        outcome
    }

    /// The output that waited was sent.
    pub(crate) fn sent(&mut self)
        requires { IsSome self.old.pending }
        ensures { self.new ≡ record self.old { pending = None } }
    {
        self.pending = None;
    }

    /// It yields in a state.
    pub(crate) fn yielded(&mut self, state: State)
        ensures { self.new ≡ record self.old { state = state } }
    {
        self.state = state;
    }
}

// What an outcome puts out, now or later.
fn output_of(outcome: &Outcome) -> Option<Out>
    ensures { result ≡ out_of outcome.now }
{
    match *outcome {
        Outcome::Emit(out) | Outcome::Last(out) => out,
        Outcome::Hold { out, .. } => Some(out),
    }
}
