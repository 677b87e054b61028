// A routine with the number of its outputs, which numbers the one that is to be sent.

use crate::pass::TableError;
use cy_comp::{Out, Outcome, Routine, State};
use cy_fuse::Cursor;
use cy_msg::Tuple;
use std::alloc::Global;
use std::marker::Model;

/// The routine of a component, with how many outputs its calls have. It goes from thread to thread
/// as a pointer. Contracts see it as the `RoutineView` of its routine.
#[derive(Drop)]
pub struct CountedRoutine {
    routine: Box<Routine>,
    outputs: u32,
}

impl Model for CountedRoutine {
    ghost use Rattle.std.specs.Prelude.{◌≡◌};
    ghost use Rattle.cy_comp.specs.Routine.{RoutineView};
    ghost use Rattle.cy_table.specs.Hold.{outputs_in};

    ghost Value = { RoutineView };

    ghost view = { λ r. r.routine.value };

    ghost invariant = { λ r. r.outputs ≡ outputs_in r.routine.value.calls };
}

impl CountedRoutine {
    ghost use Rattle.std.specs.Prelude.{◌≡◌, ◌≤◌, ◌<◌, length, None, IsSome, IfOk};
    ghost use Rattle.cy_comp.specs.declared.state.State.TheVariants as states;
    ghost use Rattle.cy_comp.specs.Calls.{cursor_after};
    ghost use Rattle.cy_comp.specs.Routine.{MayTake, answer_to, taken as after_call};
    ghost use Rattle.wake_core.specs.declared.entries.TheConstants.{MOST_PLANNED};
    ghost use Rattle.cy_table.specs.Hold.{outputs_in};

    // A routine, whose outputs are counted once. Its only error is `Memory`.
    #[tactic(auto, using(crate::proofs::Counting::outputs_counted))]
    pub(crate) fn new(alloc: Global, routine: Routine) -> Result<Self, TableError>
        requires { length routine.calls ≤ MOST_PLANNED }
        ensures { IfOk result (λ r. r ≡ routine) }
    {
        let outputs = routine.calls().outputs() as u32;
        let routine = Box::new(alloc, routine)?;
        Ok(CountedRoutine { routine, outputs })
    }

    // The routine alone.
    pub(crate) fn into_routine(self) -> Routine
        ensures { result ≡ self }
    {
        Box::into_inner(self.routine)
    }

    pub(crate) fn state(&self) -> State
        ensures { result ≡ self.now.state }
    {
        self.routine.state()
    }

    pub(crate) fn cursor(&self) -> Cursor
        ensures { result ≡ cursor_after self.now.calls }
    {
        self.routine.cursor()
    }

    // How many calls there are.
    pub(crate) fn calls(&self) -> usize
        ensures { result ≡ length self.now.calls }
    {
        self.routine.calls().len()
    }

    // How many of them have an output.
    pub(crate) fn outputs(&self) -> u32
        ensures { result ≡ outputs_in self.now.calls }
    {
        self.outputs
    }

    pub(crate) fn pending(&self) -> Option<Out>
        ensures { result ≡ self.now.pending }
    {
        self.routine.pending()
    }

    // It asks for a message.
    pub(crate) fn ask(&mut self)
        ensures { self.new ≡ record self.old { state = states.DataWait } }
    {
        self.routine.ask();
    }

    // It takes the tuple that a fetch found, and calls its component.
    pub(crate) fn took(&mut self, tuple: Tuple, position: u64, tail: u64) -> Outcome
        requires fits { MayTake self.old tuple position }
        requires few { length self.old.calls < MOST_PLANNED }
        ensures outcome { result ≡ answer_to self.old tuple }
        ensures taken { self.new ≡ after_call self.old tuple position tail }
    {
        let outcome = self.routine.took(tuple, position, tail);
        if self.routine.pending().is_some() {
            self.outputs += 1;
        }
        outcome
    }

    // The output that waited was sent.
    pub(crate) fn sent(&mut self)
        requires { IsSome self.old.pending }
        ensures { self.new ≡ record self.old { pending = None } }
    {
        self.routine.sent();
    }

    pub(crate) fn yielded(&mut self, state: State)
        ensures { self.new ≡ record self.old { state = state } }
    {
        self.routine.yielded(state);
    }
}
