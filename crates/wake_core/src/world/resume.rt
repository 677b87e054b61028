// Resuming a croutine in hand.
ghost use Rattle.std.specs.Prelude.{◌≡◌, if◌then◌else◌};
ghost use Rattle.wake_core.specs.Plain.{Stopping, Checked};

use crate::found::Found;
use crate::next_call::call_next;
use crate::{Hand, Phase, World};
use cy_comp::{Outcome, State};
use cy_fuse::fetches_find;
use cy_msg::Tuple;

impl World {
    ghost use Rattle.std.specs.Prelude.{◌≡◌, Some, None, option_map};
    ghost use Rattle.cy_comp.specs.declared.call.Call.{Call};
    ghost use Rattle.wake_core.specs.Run.{set_at};
    ghost use Rattle.wake_core.specs.Plain.{Checked, last_of, unsent_of, stops};
    ghost use Rattle.wake_core.specs.Events.{Checks, Asks, Fetches, Yields, next_call};
    ghost use Rattle.wake_core.specs.WorldOf.{plain_of, to_step};
    ghost use Rattle.wake_core.specs.WorldCalls.{in_hand, MayCheck, MayAsk, MayFetch, MayStep};
    ghost use Rattle.wake_core.specs.WorldCalls.{MayYieldAs, IsStepped};
    ghost use Rattle.wake_core.specs.Turns.{IsInHand, Calls};

    /// Looks whether the raised stop names the READY croutine in hand: true is said exactly where
    /// it does. Then it is to end without a call, once an output that it holds back is sent.
    pub fn check(&mut self, thread: u32) -> bool
        requires { MayCheck thread (plain_of self.old) }
        ensures event { Checks thread (in_hand thread (plain_of self.old)) (plain_of self.old)
            (plain_of self.new) }
        ensures answer { result ≡ stops (plain_of self.old).stop (plain_of self.old).raised
            (in_hand thread (plain_of self.old)) }
        ensures steps { to_step self.new ≡ to_step self.old }
    {
        let croutine = self.holding(thread);
        let is_stopped = self.is_stopped(croutine);
        self.hands[thread as usize] = Some(Hand {
            croutine,
            phase: phase_after(is_stopped),
        });
        is_stopped
    }

    // Whether the raised stop names a component.
    fn is_stopped(&self, component: u32) -> bool
        ensures { result ≡ stops (plain_of self.now).stop (plain_of self.now).raised component }
    {
        self.raised && self.fixed.names(component)
    }

    /// Stores that the READY croutine in hand, which is not stopped and holds no output back, waits
    /// for a message again. Its fetch comes next.
    pub fn ask(&mut self, thread: u32)
        requires { MayAsk thread (plain_of self.old) }
        ensures event { Asks thread (in_hand thread (plain_of self.old)) (plain_of self.old)
            (plain_of self.new) }
        ensures steps { to_step self.new ≡ to_step self.old }
    {
        let croutine = self.holding(thread);
        self.routines[croutine as usize].ask();
        self.hands[thread as usize] = Some(Hand {
            croutine,
            phase: Phase::Asked,
        });
    }

    /// Fetches a tuple for the croutine in hand by the fetch rule, and calls its component on it.
    /// The component is then to be stepped on the tuple. None comes exactly where the rule finds
    /// nothing.
    pub fn fetch(&mut self, thread: u32) -> Option<Tuple>
        requires { MayFetch thread (plain_of self.old) }
        ensures event { Fetches thread (in_hand thread (plain_of self.old)) (plain_of self.old)
            (plain_of self.new) }
        ensures answer { result ≡ option_map (λ (x : Call). x.tuple)
            (next_call (plain_of self.old) (in_hand thread (plain_of self.old))) }
        ensures steps { to_step self.new
            ≡ set_at (in_hand thread (plain_of self.old)) result (to_step self.old) }
    {
        fetches_find();
        let croutine = self.holding(thread);
        let mut cursor = self.routines[croutine as usize].cursor();
        match self.visitors[croutine as usize].try_fetch(&mut cursor) {
            Some((tuple, position, tail)) => {
                let found = Found {
                    tuple,
                    position,
                    tail,
                };
                self.found[croutine as usize] = Some(found);
                self.hands[thread as usize] = Some(Hand {
                    croutine,
                    phase: Phase::Running,
                });
                Some(tuple)
            }
            None => {
                self.hands[thread as usize] = Some(Hand {
                    croutine,
                    phase: Phase::Empty,
                });
                None
            }
        }
    }

    /// Steps the component in hand on the tuple that its fetch gave, once. The outcome is the one
    /// that stands since the fetch.
    pub fn step(&mut self, thread: u32, tuple: &Tuple) -> Outcome
        requires { MayStep thread tuple.now (plain_of self.old) (to_step self.old) }
        ensures same { plain_of self.new ≡ plain_of self.old }
        ensures outcome { last_of (plain_of self.old).routes (plain_of self.old).calls
            (in_hand thread (plain_of self.old)) ≡ Some result }
        ensures steps { to_step self.new
            ≡ set_at (in_hand thread (plain_of self.old)) None (to_step self.old) }
    {
        fetches_find();
        let croutine = self.holding(thread);
        match self.found[croutine as usize] {
            Some(found) => {
                self.found[croutine as usize] = None;
                self.routines[croutine as usize].took(*tuple, found.position, found.tail)
            }
            None => unreachable!(),
        }
    }

    /// Thread 0 asks and fetches for the croutine in hand, and steps its component at once on what
    /// is found: `ask`, `fetch` and `step` in one, without keeping the tuple between them. None
    /// comes exactly where the fetch finds nothing.
    #[inline(always)]
    pub(crate) fn call(&mut self, component: u32) -> Option<Outcome>
        requires held { IsInHand component Checked (plain_of self.old) }
        requires none_held { unsent_of (plain_of self.old) component ≡ None }
        ensures event { Calls component result (plain_of self.old) (plain_of self.new) }
        ensures steps { to_step self.new ≡ to_step self.old }
    {
        fetches_find();
        let index = component as usize;
        let routine = &mut self.routines[index];
        routine.ask();
        match call_next(routine, &self.visitors[index]) {
            Some(outcome) => {
                self.hands[0] = Some(Hand {
                    croutine: component,
                    phase: Phase::Running,
                });
                Some(outcome)
            }
            None => {
                self.hands[0] = Some(Hand {
                    croutine: component,
                    phase: Phase::Empty,
                });
                None
            }
        }
    }

    /// Stores what the croutine in hand is to do next: it waits after a fetch that found nothing,
    /// does what its outcome names after a call, is READY after a held output was sent, and
    /// FINISHED where it is stopped.
    pub fn yield_as(&mut self, thread: u32, state: State)
        requires event { MayYieldAs thread state (plain_of self.old) }
        requires stepped { IsStepped thread (plain_of self.old) (to_step self.old) }
        ensures event { Yields thread (in_hand thread (plain_of self.old)) state
            (plain_of self.old) (plain_of self.new) }
        ensures steps { to_step self.new ≡ to_step self.old }
    {
        let croutine = self.holding(thread);
        self.routines[croutine as usize].yielded(state);
        self.hands[thread as usize] = Some(Hand {
            croutine,
            phase: Phase::Done,
        });
    }
}

// How far its holder is with a croutine that is to be resumed, once it looked for the stop.
fn phase_after(is_stopped: bool) -> Phase
    ensures { result ≡ (if is_stopped then Stopping else Checked) }
{
    if is_stopped {
        Phase::Stopping
    } else {
        Phase::Checked
    }
}
