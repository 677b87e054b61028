// What thread 0 does while it alone does anything: several events in one call.
ghost use Rattle.std.specs.Prelude.{◌≡◌, ◌||◌, ◌&&◌, not, is_some};
ghost use Rattle.cy_fuse.specs.Visitor.{position_at};
ghost use Rattle.cy_comp.specs.Calls.{cursor_after};
ghost use Rattle.wake_core.specs.Turns.{is_due, is_woken, is_ready};

use crate::{Hand, Phase, World};
use cy_comp::{Routine, State};
use cy_fuse::{Visitor, fetches_find};

impl World {
    ghost use Rattle.std.specs.Prelude.{◌≡◌, ◌<◌, ◌∷◌, [], true, false, length};
    ghost use Rattle.wake_core.specs.Rest.{IsAtRest};
    ghost use Rattle.wake_core.specs.Turns.{IsTaken, Passes, IsUnstopped, Parks, MayGiveBack};
    ghost use Rattle.wake_core.specs.Turns.{GivesBack};
    ghost use Rattle.wake_core.specs.WorldOf.{plain_of, to_step};
    ghost use Rattle.wake_core.specs.WorldCalls.{IsStepped};

    /// Takes a croutine in hand where it is READY then, and else passes it by: `acquire`, `spend`
    /// unless it is due, and `ready` or `release`, in one. Whether it was taken.
    #[inline(always)]
    pub(crate) fn take(&mut self, component: u32) -> bool
        requires rest { IsAtRest (plain_of self.old) }
        requires known { component < length (plain_of self.old).routes }
        ensures taken { result ≡ true → IsTaken component (plain_of self.old) (plain_of self.new) }
        ensures passed { result ≡ false
            → Passes (component ∷ []) (plain_of self.old) (plain_of self.new) }
        ensures steps { to_step self.new ≡ to_step self.old }
    {
        let index = component as usize;
        let state = self.routines[index].state();
        let was_spent = self.spent[index];
        self.spent[index] = spent_after(state, was_spent, self.clock);
        if !runs(state, was_spent, self.clock) {
            return false;
        }
        self.routines[index].yielded(State::Ready);
        self.held[index] = true;
        self.hands[0] = Some(Hand {
            croutine: component,
            phase: Phase::Known,
        });
        true
    }

    /// A croutine whose next turn would find nothing has that turn at once, and waits with its flag
    /// spent: `take`, `check`, `call` and `give_back`, in one. Any other stays as it is. Most are
    /// READY with nothing to fetch after a call; this spares them a second scan.
    #[inline(always)]
    pub(crate) fn park(&mut self, component: u32)
        requires rest { IsAtRest (plain_of self.old) }
        requires known { component < length (plain_of self.old).routes }
        requires unstopped { IsUnstopped component (plain_of self.old) }
        ensures parks { Parks component (plain_of self.old) (plain_of self.new) }
        ensures steps { to_step self.new ≡ to_step self.old }
    {
        fetches_find();
        let index = component as usize;
        if idles(&self.routines[index], &self.visitors[index]) {
            self.routines[index].ask();
            self.spent[index] = true;
        }
    }

    /// Stores what the croutine in hand is to do next, and gives it back: `yield_as` and `release`,
    /// in one.
    #[inline(always)]
    pub(crate) fn give_back(&mut self, state: State)
        requires may { MayGiveBack state (plain_of self.old) }
        requires stepped { IsStepped 0 (plain_of self.old) (to_step self.old) }
        ensures event { GivesBack state (plain_of self.old) (plain_of self.new) }
        ensures steps { to_step self.new ≡ to_step self.old }
    {
        let croutine = self.holding(0) as usize;
        self.routines[croutine].yielded(state);
        self.held[croutine] = false;
        self.hands[0] = None;
    }
}

// Whether the flag of a croutine that is taken is spent then: that of one that is due stays.
fn spent_after(state: State, was_spent: bool, clock: u64) -> bool
    ensures { result ≡ (was_spent || not (is_due state clock)) }
{
    match state {
        State::Sleep { until } if until < clock => was_spent,
        _ => true,
    }
}

// Whether a croutine that is taken is READY then: it was, it waits and its flag is clear, or it is
// due.
fn runs(state: State, was_spent: bool, clock: u64) -> bool
    ensures { result ≡ (is_ready state || is_woken state was_spent || is_due state clock) }
{
    match state {
        State::Ready => true,
        State::DataWait => !was_spent,
        State::Sleep { until } => until < clock,
        State::Finished => false,
    }
}

// Whether the next turn of a croutine would find nothing.
#[inline(always)]
fn idles(routine: &Routine, visitor: &Visitor) -> bool
    ensures { result ≡ (is_ready routine.now.state && not (is_some routine.now.pending)
        && not (is_some (position_at (cursor_after routine.now.calls) visitor.now))) }
{
    match routine.state() {
        State::Ready => misses(routine, visitor),
        State::DataWait => false,
        State::Sleep { .. } => false,
        State::Finished => false,
    }
}

// Whether one that is READY has no output to send and nothing to fetch.
#[inline(always)]
fn misses(routine: &Routine, visitor: &Visitor) -> bool
    ensures { result ≡ (not (is_some routine.now.pending)
        && not (is_some (position_at (cursor_after routine.now.calls) visitor.now))) }
{
    if routine.pending().is_some() {
        return false;
    }
    !visitor.finds(routine.cursor())
}
