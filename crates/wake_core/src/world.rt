// The world of a run, whose calls are the events.
ghost use Rattle.std.specs.Prelude.{ℕ, ◌≡◌, length, true, None, vec_capacity};
ghost use Rattle.wake_core.specs.Plain.{Hand};
ghost use Rattle.wake_core.specs.Run.{played_of};
ghost use Rattle.wake_core.specs.Sound.{Sound};
ghost use Rattle.wake_core.specs.Fields.{read, no_visitor, no_routine};
ghost use Rattle.wake_core.specs.private.Shown.{plain_at};
ghost use Rattle.wake_core.specs.private.Shown.{IsSized, IsFlagged};
ghost use Rattle.wake_core.specs.Fields.{IsVisited, IsRoomy};
ghost use Rattle.wake_core.specs.private.Shown.{IsStepping, IsWaiting, AreOwing};

use crate::Hand;
use crate::fixed::Fixed;
use crate::found::Found;
use crate::owed::Owed;
use cy_comp::Routine;
use cy_fuse::Visitor;
use cy_msg::Token;

mod alone;
mod apart;
mod clock;
mod deliver;
mod hold;
mod opening;
mod read;
mod resume;
mod send;
mod tell;

/// The world of a run: what the components of a wiring have come to, with states and flags, and
/// what each of at most 65 threads has in hand and still has to do. Thread 0 is the player.
///
/// Contracts see it as the plain world that `plain_of` gives, and of each component the tuple on
/// which it is still to be stepped, by `to_step`. Its calls are the events of a run. None takes
/// memory, and none takes longer the longer the run is.
#[derive(Drop)]
pub struct World {
    fixed: Fixed,
    visitors: Vec<Visitor>,
    routines: Vec<Routine>,
    // The tuple on which a component is still to be stepped.
    found: Vec<Option<Found>>,
    spent: Vec<bool>,
    // How many of a component's outputs stand on the tape.
    sent: Vec<u32>,
    held: Vec<bool>,
    hands: Vec<Option<Hand>>,
    owed: Vec<Owed>,
    tape: Vec<Token>,
    played: u32,
    clock: u64,
    closing: bool,
    raised: bool,
    ghost sized: { IsSized (length fixed.routes.items) (length visitors.items)
        (length routines.items) (length found.items) (length spent.items) (length sent.items)
        (length held.items) (length hands.items) (length owed.items) },
    ghost flagged: { IsFlagged (length fixed.routes.items) (read (λ b. b) true held.items)
        (read (λ h. h) None hands.items) },
    ghost stepping: { IsStepping (read (λ h. h) None hands.items)
        (read (λ f. f) None found.items) },
    ghost waiting: { IsWaiting fixed.routes.items (read (λ r. r) no_routine routines.items)
        (read (λ f. f) None found.items) (read (λ n. n) 0 sent.items) tape.items },
    ghost visited: { IsVisited fixed.routes.items fixed.counts.items
        (read (λ v. v) no_visitor visitors.items) },
    ghost roomy: { IsRoomy fixed.routes.items fixed.counts.items
        (read (λ v. v) no_visitor visitors.items) (read (λ r. r) no_routine routines.items)
        (vec_capacity tape) },
    ghost owing: { AreOwing fixed.routes.items owed.items },
    ghost counted: { played ≡ length (played_of fixed.routes.items tape.items) },
    ghost sound: { Sound (plain_at fixed.routes.items fixed.counts.items fixed.stop visitors.items
        routines.items found.items spent.items hands.items owed.items tape.items clock closing
        raised) },
}

impl World {
    ghost use Rattle.std.specs.Prelude.{◌≡◌, ◌≢◌, ◌≤◌, ◌<◌, ℕ, None, length};
    ghost use Rattle.wake_core.specs.Plain.{Phase, hand};
    ghost use Rattle.wake_core.specs.LawfulRun.{Lost};
    ghost use Rattle.wake_core.specs.Sound.{Sound, NotRunning};
    ghost use Rattle.wake_core.specs.WorldOf.{plain_of, to_step};
    ghost use Rattle.wake_core.specs.WorldCalls.{in_hand};

    /// All that holds of a world that events can reach holds of this one: so no croutine is lost,
    /// and none has two holders. A component is still to be stepped only while it is held and runs.
    pub fn sound(&self)
        ensures sound { Sound (plain_of self.now) }
        ensures none_lost { (c : ℕ) → Lost (plain_of self.now) c → ⊥ }
        ensures stepped { (c : ℕ) → NotRunning (plain_of self.now).hands c
            → to_step self.now c ≡ None }
    {
        let _clock = self.clock;
    }

    // The croutine that a thread has in hand.
    fn holding(&self, thread: u32) -> u32
        requires { (plain_of self.now).hands thread ≢ None }
        ensures is { result ≡ in_hand thread (plain_of self.now) }
        ensures known { result < length (plain_of self.now).routes }
        ensures thread { thread ≤ 64 }
    {
        match self.hands[thread as usize] {
            Some(hand) => hand.croutine,
            None => unreachable!(),
        }
    }
}
