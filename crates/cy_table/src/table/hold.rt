// Taking a croutine, beginning its resume, saying what it is to do next, and giving it back.
ghost use Rattle.std.specs.Prelude.{◌≡◌};
ghost use Rattle.cy_table.specs.Layout.{state_number as number_for};

use crate::hold::Hold;
use crate::laws;
use crate::part::Part;
use crate::pass::{Busy, Pass};
use crate::rule::{Acquire, Ask, Check, Release, Yield};
use crate::table::FlagTable;
use cy_comp::State;

impl FlagTable {
    ghost use Rattle.std.specs.Prelude.{◌≡◌, ◌∷◌, [], IfOk, IfErr};
    ghost use Rattle.cy_table.specs.Deeds as deed;
    ghost use Rattle.cy_table.specs.Steps.{releasing, checking, asking, yielding};
    ghost use Rattle.cy_table.specs.Plays.{in_hand};
    ghost use Rattle.cy_table.specs.Calls.{seat_of, Stays, NotedSince, HasNoHold, Holds, IsStepped};
    ghost use Rattle.cy_table.specs.Calls.{MayAcquire, acquire_deeds, component_of};
    ghost use Rattle.cy_table.specs.Calls.{Acquired, FoundHeld, CanRelease, CanResume, CanAsk};
    ghost use Rattle.cy_table.specs.Calls.{CanYield, ShowsTheSame};

    /// Takes a croutine in hand, by one swap of its hold word, where it was found free. `Busy`
    /// comes exactly where another thread was found to have it. The routine has at least the calls
    /// that this thread has seen.
    pub fn acquire(&self, pass: &mut Pass, component: u32) -> Result<Hold, Busy>
        requires { MayAcquire self.now pass.old component }
        ensures same { Stays self.now pass.old pass.new }
        ensures noted { NotedSince (acquire_deeds component result) pass.old pass.new }
        ensures taken { IfOk result (λ h. Acquired self.now pass.old component pass.new h) }
        ensures busy { IfErr result (λ _. FoundHeld pass.old component pass.new) }
    {
        laws::hold_swaps();
        laws::rooms_left();
        let c = component as usize;
        let shared = &self.table.shared;
        let found = shared.swap::<Acquire>(&mut pass.seat, 4 * c + 4, 1);
        if found == 0 {
            let taken = shared.exchange(&mut pass.seat, 2 * c + 1, Part::Away);
            let Part::Routine(routine) = taken else {
                unreachable!()
            };
            Ok(Hold {
                component,
                channel: self.fixed.out(c),
                routine,
                found: None,
            })
        } else {
            Err(Busy)
        }
    }

    /// Begins a resume of the croutine in hand, which is READY, by one load of the stop. Whether
    /// that load found it raised and of this component, which then ends without a call.
    pub fn resume(&self, pass: &mut Pass, hold: &mut Hold) -> bool
        requires { CanResume self.now pass.old hold.old }
        ensures same { Stays self.now pass.old pass.new }
        ensures noted { NotedSince (deed.Check (component_of hold.old) ∷ []) pass.old pass.new }
        ensures seat { seat_of pass.new
            ≡ checking (seat_of pass.old) (in_hand (seat_of pass.old)) result }
        ensures holds { Holds self.now pass.new hold.new × ShowsTheSame hold.old hold.new
            × IsStepped hold.new }
    {
        laws::stop_loads();
        let shared = &self.table.shared;
        let found = shared.load::<Check>(&mut pass.seat, self.stop_word());
        found == u64::from(hold.component) + 1
    }

    /// Before a fetch: the croutine in hand, which is to be resumed and not stopped, waits for a
    /// message again.
    pub fn ask(&self, pass: &mut Pass, hold: &mut Hold)
        requires { CanAsk self.now pass.old hold.old }
        ensures same { Stays self.now pass.old pass.new }
        ensures noted { NotedSince (deed.Ask (component_of hold.old) ∷ []) pass.old pass.new }
        ensures seat { seat_of pass.new ≡ asking (seat_of pass.old) (in_hand (seat_of pass.old)) }
        ensures holds { Holds self.now pass.new hold.new × IsStepped hold.new }
    {
        laws::state_stores();
        let c = hold.component as usize;
        hold.routine.ask();
        let shared = &self.table.shared;
        shared.store::<Ask>(&mut pass.seat, 4 * c + 5, 1);
    }

    /// After a fetch, and where one was called after the step; or of one that is stopped, once its
    /// held output was sent: stores what the croutine in hand is to do next.
    pub fn yield_as(&self, pass: &mut Pass, hold: &mut Hold, state: State)
        requires { CanYield self.now pass.old hold.old state }
        ensures same { Stays self.now pass.old pass.new }
        ensures noted { NotedSince
            (deed.Yield (component_of hold.old) state ∷ []) pass.old pass.new }
        ensures seat { seat_of pass.new
            ≡ yielding (seat_of pass.old) (in_hand (seat_of pass.old)) }
        ensures holds { Holds self.now pass.new hold.new × IsStepped hold.new }
    {
        laws::state_stores();
        let c = hold.component as usize;
        let number = state_number(state);
        hold.routine.yielded(state);
        let shared = &self.table.shared;
        shared.store::<Yield>(&mut pass.seat, 4 * c + 5, number);
    }

    /// Gives the croutine in hand back, after it yielded or without a resume.
    pub fn release(&self, pass: &mut Pass, hold: Hold)
        requires { CanRelease self.now pass.old hold }
        ensures same { Stays self.now pass.old pass.new }
        ensures noted { NotedSince (deed.Release (component_of hold) ∷ []) pass.old pass.new }
        ensures seat { seat_of pass.new ≡ releasing (seat_of pass.old) }
        ensures free { HasNoHold pass.new }
    {
        laws::hold_stores();
        let Hold {
            component,
            channel: _,
            routine,
            found: _,
        } = hold;
        let c = component as usize;
        let shared = &self.table.shared;
        let left = shared.exchange(&mut pass.seat, 2 * c + 1, Part::Routine(routine));
        let Part::Away = left else { unreachable!() };
        shared.store::<Release>(&mut pass.seat, 4 * c + 4, 0);
    }
}

// The number of a state in its word.
pub(super) fn state_number(state: State) -> u64
    ensures { result ≡ number_for state }
{
    match state {
        State::Ready => 0,
        State::DataWait => 1,
        State::Sleep { .. } => 2,
        State::Finished => 3,
    }
}
