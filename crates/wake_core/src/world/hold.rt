// Taking a croutine and giving it back.
ghost use Rattle.std.specs.Prelude.{◌≡◌};
ghost use Rattle.wake_core.specs.Events.{phase_after_spend};

use crate::{Hand, Phase, World};
use cy_comp::State;

impl World {
    ghost use Rattle.std.specs.Prelude.{◌≡◌, not};
    ghost use Rattle.wake_core.specs.Events.{Spends, Readies, Releases};
    ghost use Rattle.wake_core.specs.WorldOf.{plain_of, to_step};
    ghost use Rattle.wake_core.specs.WorldCalls.{in_hand, MayAcquire, Acquired, MaySpend, MayReady};
    ghost use Rattle.wake_core.specs.WorldCalls.{MayRelease};

    /// Takes a croutine in hand, where nobody has it; where it is held nothing changes. Whether it
    /// was taken.
    pub fn acquire(&mut self, thread: u32, component: u32) -> bool
        requires { MayAcquire thread component (plain_of self.old) }
        ensures event { Acquired thread component result (plain_of self.old) (plain_of self.new) }
        ensures steps { to_step self.new ≡ to_step self.old }
    {
        if self.held[component as usize] {
            return false;
        }
        self.held[component as usize] = true;
        self.hands[thread as usize] = Some(Hand {
            croutine: component,
            phase: Phase::Fresh,
        });
        true
    }

    /// Spends the flag of the croutine in hand, of which nothing is known yet, where it isn't due.
    /// Whether the flag was clear.
    pub fn spend(&mut self, thread: u32) -> bool
        requires { MaySpend thread (plain_of self.old) }
        ensures event { Spends thread (in_hand thread (plain_of self.old))
            (plain_of self.old).clock (plain_of self.old) (plain_of self.new) }
        ensures answer { result
            ≡ not ((plain_of self.old).spent (in_hand thread (plain_of self.old))) }
        ensures steps { to_step self.new ≡ to_step self.old }
    {
        let croutine = self.holding(thread);
        let was_spent = self.spent[croutine as usize];
        let phase = phase_after(self.routines[croutine as usize].state(), was_spent);
        self.spent[croutine as usize] = true;
        self.hands[thread as usize] = Some(Hand { croutine, phase });
        !was_spent
    }

    /// Makes the croutine in hand READY, where it was woken or is due.
    pub fn ready(&mut self, thread: u32)
        requires { MayReady thread (plain_of self.old) }
        ensures event { Readies thread (in_hand thread (plain_of self.old)) (plain_of self.old)
            (plain_of self.new) }
        ensures steps { to_step self.new ≡ to_step self.old }
    {
        let croutine = self.holding(thread);
        self.routines[croutine as usize].yielded(State::Ready);
        self.hands[thread as usize] = Some(Hand {
            croutine,
            phase: Phase::Known,
        });
    }

    /// Gives the croutine in hand back, after it yielded or without a resume.
    pub fn release(&mut self, thread: u32)
        requires { MayRelease thread (plain_of self.old) }
        ensures event { Releases thread (in_hand thread (plain_of self.old)) (plain_of self.old)
            (plain_of self.new) }
        ensures steps { to_step self.new ≡ to_step self.old }
    {
        let croutine = self.holding(thread);
        self.held[croutine as usize] = false;
        self.hands[thread as usize] = None;
    }
}

// How far its holder is with a croutine whose flag it spent: a clear flag wakes one that waits.
fn phase_after(state: State, was_spent: bool) -> Phase
    ensures { result ≡ phase_after_spend state was_spent }
{
    match state {
        State::DataWait if !was_spent => Phase::Woken,
        _ => Phase::Known,
    }
}
