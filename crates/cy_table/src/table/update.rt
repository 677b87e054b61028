// The update of a croutine that was taken: whether it is to be resumed.
ghost use Rattle.std.specs.Prelude.{◌≡◌, ◌&&◌, not};
ghost use Rattle.wake_core.specs.Events.{is_waiting};
ghost use Rattle.wake_core.specs.Turns.{is_due};

use crate::hold::Hold;
use crate::laws;
use crate::pass::Pass;
use crate::rule::{Ready, See, Spend};
use crate::table::FlagTable;
use cy_comp::State;

impl FlagTable {
    ghost use Rattle.std.specs.Prelude.{◌≡◌, ◌≤◌, ◌∷◌, [], ◌&&◌, not};
    ghost use Rattle.wake_core.specs.Events.{is_waiting};
    ghost use Rattle.cy_table.specs.Deeds as deed;
    ghost use Rattle.cy_table.specs.Steps.{readying, spending, seeing};
    ghost use Rattle.cy_table.specs.Plays.{in_hand};
    ghost use Rattle.cy_table.specs.Calls.{seat_of, thread_of, knowing, IsAt, Stays, NotedSince};
    ghost use Rattle.cy_table.specs.Calls.{Holds};
    ghost use Rattle.cy_table.specs.Calls.{IsStepped, CanUpdate, Updated, CanReady, CanSpend};
    ghost use Rattle.cy_table.specs.Calls.{after_spend, component_of, state_of, spend_deeds};
    ghost use Rattle.cy_table.specs.Calls.{update_deeds};

    /// Loads the clock once. A croutine that is due at that time is made READY; of another the flag
    /// is spent, and it is made READY where that woke it. The state in which it is then.
    #[tactic(auto, using(crate::proofs::Updating::due_is, crate::proofs::Updating::not_due_is))]
    pub fn update(&self, pass: &mut Pass, hold: &mut Hold) -> State
        requires { CanUpdate self.now pass.old hold.old }
        ensures same { Stays self.now pass.old pass.new }
        ensures noted { NotedSince (update_deeds (component_of hold.old)
            (state_of (seat_of pass.old)) (seat_of pass.new).clock result) pass.old pass.new }
        ensures updated { Updated (seat_of pass.old) result (seat_of pass.new) }
        ensures holds { Holds self.now pass.new hold.new × IsStepped hold.new }
    {
        let state = hold.routine.state();
        let time = self.see_clock(pass);
        if due(state, time) {
            self.ready(pass, hold);
        } else {
            self.wake(pass, hold);
        }
        hold.routine.state()
    }

    // Loads the clock.
    fn see_clock(&self, pass: &mut Pass) -> u64
        requires { IsAt self.now pass.old }
        ensures same { Stays self.now pass.old pass.new }
        ensures noted { NotedSince [] pass.old pass.new }
        ensures thread { thread_of pass.new ≡ knowing pass.old (seeing (seat_of pass.old) result) }
        ensures past { (seat_of pass.old).clock ≤ result }
    {
        laws::clock_steps();
        let shared = &self.table.shared;
        shared.load::<See>(&mut pass.seat, 1)
    }

    // Stores READY.
    fn ready(&self, pass: &mut Pass, hold: &mut Hold)
        requires { CanReady self.now pass.old hold.old }
        ensures same { Stays self.now pass.old pass.new }
        ensures noted { NotedSince (deed.Ready (component_of hold.old) ∷ []) pass.old pass.new }
        ensures seat { seat_of pass.new
            ≡ readying (seat_of pass.old) (in_hand (seat_of pass.old)) }
        ensures holds { Holds self.now pass.new hold.new × IsStepped hold.new }
    {
        laws::state_stores();
        let c = hold.component as usize;
        hold.routine.yielded(State::Ready);
        let shared = &self.table.shared;
        shared.store::<Ready>(&mut pass.seat, 4 * c + 5, 0);
    }

    // Spends the flag. Whether it was spent before.
    fn spend(&self, pass: &mut Pass, hold: &Hold) -> bool
        requires { CanSpend self.now pass.old hold.now }
        ensures same { Stays self.now pass.old pass.new }
        ensures noted { NotedSince
            (deed.Spend (component_of hold.now) (seat_of pass.old).clock ∷ []) pass.old pass.new }
        ensures seat { seat_of pass.new
            ≡ spending (seat_of pass.old) (in_hand (seat_of pass.old)) result }
        ensures holds { Holds self.now pass.new hold.now }
    {
        laws::flag_swaps();
        let c = hold.component as usize;
        let shared = &self.table.shared;
        let found = shared.swap::<Spend>(&mut pass.seat, 4 * c + 6, 1);
        found == 1
    }

    // Spends the flag, and stores READY where that woke the croutine. Whether it was spent before.
    #[tactic(auto, using(crate::proofs::Updating::woken_is))]
    fn wake(&self, pass: &mut Pass, hold: &mut Hold) -> bool
        requires { CanSpend self.now pass.old hold.old }
        ensures same { Stays self.now pass.old pass.new }
        ensures noted { NotedSince (spend_deeds (component_of hold.old) (seat_of pass.old).clock
            (is_waiting (state_of (seat_of pass.old)) && not result)) pass.old pass.new }
        ensures seat { seat_of pass.new ≡ after_spend (seat_of pass.old) result }
        ensures holds { Holds self.now pass.new hold.new × IsStepped hold.new }
    {
        let state = hold.routine.state();
        let was_spent = self.spend(pass, hold);
        if wakes(state, was_spent) {
            self.ready(pass, hold);
        }
        was_spent
    }
}

// Whether a swap of its flag wakes a croutine: it waits for a message, and the flag was clear.
fn wakes(state: State, was_spent: bool) -> bool
    ensures { result ≡ is_waiting state && not was_spent }
{
    matches!(state, State::DataWait) && !was_spent
}

// Whether a croutine is due.
fn due(state: State, clock: u64) -> bool
    ensures { result ≡ is_due state clock }
{
    match state {
        State::Sleep { until } => until < clock,
        _ => false,
    }
}
