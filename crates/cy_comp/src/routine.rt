// The routine by which a component is resumed.
ghost use Rattle.std.specs.Prelude.{◌≡◌, IfOk, IsSome, None};
ghost use Rattle.cy_comp.specs.declared.state.State.TheVariants as states;
ghost use Rattle.cy_comp.specs.Step.{out_of};
ghost use Rattle.cy_comp.specs.Calls.{cursor_after};
ghost use Rattle.cy_comp.specs.Routine.{new_routine, answer_to, MayTake, taken as after_call};

use crate::calls::CallList;
use crate::{Body, Call, Calls, CompError, Component, Kind, Out, Outcome, State};
use cy_fuse::Cursor;
use cy_msg::Tuple;
use std::alloc::Global;
use std::marker::Model;

/// A component with its state, its calls and the output that waits to be sent. Contracts see it as
/// a `RoutineView`.
#[derive(Drop)]
pub struct Routine {
    body: Body,
    state: State,
    cursor: Cursor,
    calls: CallList,
    pending: Option<Out>,
}

impl Model for Routine {
    ghost use Rattle.cy_comp.specs.Routine.{RoutineView};

    ghost Value = { RoutineView };

    ghost use Rattle.cy_comp.specs.private.Keeping.{IsRoutine};

    ghost view = { λ r. record {
      kind = r.body.kind;
      state = r.state;
      calls = r.calls.made;
      pending = r.pending;
      spare = r.calls.spare;
    } };

    ghost invariant = { λ r. IsRoutine r.body r.cursor r.calls.made };
}

impl Routine {
    /// The routine of a component before its first call: it is to be resumed. It takes the memory
    /// for so many calls; its only error is `Memory`.
    pub fn new(alloc: Global, kind: &Kind, spare: u32) -> Result<Self, CompError>
        ensures { IfOk result (λ r. r ≡ new_routine kind.now spare) }
    {
        Ok(Routine {
            body: Body::new(alloc, kind)?,
            state: State::Ready,
            cursor: Cursor::new(),
            calls: CallList::with_room(alloc, spare)?,
            pending: None,
        })
    }

    /// Whether it is to be resumed.
    pub fn state(&self) -> State
        ensures { result ≡ self.now.state }
    {
        self.state
    }

    /// Where its next fetch begins.
    pub fn cursor(&self) -> Cursor
        ensures { result ≡ cursor_after self.now.calls }
    {
        self.cursor
    }

    /// Its calls, in order.
    pub fn calls(&self) -> Calls<'_>
        ensures { result ≡ self.now.calls }
    {
        self.calls.calls()
    }

    /// The output that waits to be sent, or none where none waits.
    pub fn pending(&self) -> Option<Out>
        ensures { result ≡ self.now.pending }
    {
        self.pending
    }

    /// It asks for a message: it waits for one from now on.
    pub fn ask(&mut self)
        ensures { self.new ≡ record self.old { state = states.DataWait } }
    {
        self.state = State::DataWait;
    }

    /// It takes the tuple that a fetch found at a position, where there were `tail` tuples, and
    /// calls its component. The output of the call waits to be sent.
    #[inline(always)]
    pub fn took(&mut self, tuple: Tuple, position: u64, tail: u64) -> Outcome
        requires { MayTake self.old tuple position }
        ensures outcome { result ≡ answer_to self.old tuple }
        ensures taken { self.new ≡ after_call self.old tuple position tail }
    {
        let outcome = self.body.step(&tuple);
        let out = output_of(&outcome);
        self.calls.push(&Call {
            position,
            tail,
            tuple,
            out,
        });
        self.pending = out;
        self.cursor = Cursor::at(position + 1);
        outcome
    }

    /// The output that waited was sent.
    pub fn sent(&mut self)
        requires { IsSome self.old.pending }
        ensures { self.new ≡ record self.old { pending = None } }
    {
        self.pending = None;
    }

    /// It yields in a state.
    pub fn yielded(&mut self, state: State)
        ensures { self.new ≡ record self.old { state = state } }
    {
        self.state = state;
    }
}

// What an outcome puts out, now or later.
fn output_of(outcome: &Outcome) -> Option<Out>
    ensures { result ≡ out_of outcome.now }
{
    match *outcome {
        Outcome::Emit(out) | Outcome::Last(out) => out,
        Outcome::Hold { out, .. } => Some(out),
    }
}
