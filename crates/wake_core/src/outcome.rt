// What an outcome says of the croutine that was called.
ghost use Rattle.std.specs.Prelude.{◌≡◌, Some};
ghost use Rattle.cy_comp.specs.Calls.{held_until};
ghost use Rattle.wake_core.specs.Events.{state_after};
ghost use Rattle.wake_core.specs.Turns.{is_held};

use cy_comp::{Outcome, State};

/// Whether an outcome holds its output back.
pub fn holds(outcome: &Outcome) -> bool
    ensures { result ≡ is_held (held_until (Some outcome.now)) }
{
    matches!(*outcome, Outcome::Hold { .. })
}

/// What an outcome says that the croutine is to do next.
pub fn state_of(outcome: &Outcome) -> State
    ensures { result ≡ state_after outcome.now }
{
    match *outcome {
        Outcome::Emit(_) => State::Ready,
        Outcome::Hold { until, .. } => State::Sleep { until },
        Outcome::Last(_) => State::Finished,
    }
}
