// The clock, the stop, the end of the play, and the flags of components that were filled.
use crate::laws;
use crate::pass::Pass;
use crate::rule::{Clear, Close, Heed, Look, Raise, Tick};
use crate::table::{FlagTable, stop_number};

impl FlagTable {
    ghost use Rattle.std.specs.Prelude.{◌≡◌, ◌<◌, ◌++◌, ◌∷◌, [], length, Bool, true};
    ghost use Rattle.cy_table.specs.Deeds as deed;
    ghost use Rattle.cy_table.specs.Steps.{ticking, heeding, closing_all, raising, looking};
    ghost use Rattle.cy_table.specs.Steps.{clearing_but};
    ghost use Rattle.cy_table.specs.Plays.{but_first, but_last};
    ghost use Rattle.cy_table.specs.Calls.{seat_of, thread_of, knowing, IsAt, Stays, NotedSince};
    ghost use Rattle.cy_table.specs.Calls.{CanTick, look_deeds};
    ghost use Rattle.cy_table.specs.Calls.{CanRaise, CanClose, CanLook, after_look, made_of};

    /// The player sets the clock forward, to a time in nanoseconds.
    pub fn tick(&self, pass: &mut Pass, time: u64)
        requires { CanTick self.now pass.old time }
        ensures same { Stays self.now pass.old pass.new }
        ensures noted { NotedSince (deed.Tick time ∷ []) pass.old pass.new }
        ensures thread { thread_of pass.new ≡ knowing pass.old (ticking (seat_of pass.old) time) }
    {
        laws::clock_steps();
        let shared = &self.table.shared;
        shared.store::<Tick>(&mut pass.seat, 1, time);
    }

    /// Whether the run was found closing, by one load. It was where this pass set it closing, or
    /// found it so before.
    pub fn closing(&self, pass: &mut Pass) -> bool
        requires { IsAt self.now pass.old }
        ensures same { Stays self.now pass.old pass.new }
        ensures noted { NotedSince [] pass.old pass.new }
        ensures thread { thread_of pass.new
            ≡ knowing pass.old (heeding (seat_of pass.old) result) }
        ensures stays { (seat_of pass.old).closing ≡ true → result ≡ true }
    {
        laws::closing_steps();
        let shared = &self.table.shared;
        let found = shared.load::<Heed>(&mut pass.seat, 2);
        found == 1
    }

    /// The player raises the stop, when as many messages were played as it says.
    pub fn raise(&self, pass: &mut Pass)
        requires { CanRaise self.now pass.old }
        ensures same { Stays self.now pass.old pass.new }
        ensures noted { NotedSince (deed.Stop ∷ []) pass.old pass.new }
        ensures thread { thread_of pass.new ≡ knowing pass.old (raising (seat_of pass.old)) }
    {
        laws::stop_stores();
        let number = stop_number(self.fixed.stop(), true);
        let shared = &self.table.shared;
        shared.store::<Raise>(&mut pass.seat, self.stop_word(), number);
    }

    /// The player says that all was played, and the stop raised where one is given.
    pub fn set_closing(&self, pass: &mut Pass)
        requires { CanClose self.now pass.old }
        ensures same { Stays self.now pass.old pass.new }
        ensures noted { NotedSince (deed.Close ∷ []) pass.old pass.new }
        ensures thread { thread_of pass.new ≡ knowing pass.old (closing_all (seat_of pass.old)) }
    {
        laws::closing_steps();
        let shared = &self.table.shared;
        shared.store::<Close>(&mut pass.seat, 2, 1);
    }

    /// Looks at the state of a component, the first of the news, when all readers are filled; and
    /// clears its flag where it was found to wait for a message.
    pub fn look_and_clear(&self, pass: &mut Pass, component: u32)
        requires { CanLook self.now pass.old component }
        ensures same { Stays self.now pass.old pass.new }
        ensures noted { (waits : Bool)
            × NotedSince (look_deeds component waits) pass.old pass.new }
        ensures thread { thread_of pass.new ≡ knowing pass.old (after_look (seat_of pass.old)) }
    {
        if self.look(pass, component) {
            self.clear(pass, component);
        }
    }

    // Loads a state. Whether the component was found to wait for a message.
    fn look(&self, pass: &mut Pass, component: u32) -> bool
        requires { CanLook self.now pass.old component }
        ensures same { Stays self.now pass.old pass.new }
        ensures noted { NotedSince (deed.Look component ∷ []) pass.old pass.new }
        ensures thread { thread_of pass.new ≡ knowing pass.old
            (looking (seat_of pass.old) component (but_first (seat_of pass.old).news) result) }
    {
        laws::state_loads();
        let c = component as usize;
        let shared = &self.table.shared;
        let found = shared.load::<Look>(&mut pass.seat, 4 * c + 5);
        found == 1
    }

    // Clears the flag of the last component that is to be cleared.
    fn clear(&self, pass: &mut Pass, component: u32)
        requires at { IsAt self.now pass.old }
        requires last { (seat_of pass.old).clearing
            ≡ but_last (seat_of pass.old).clearing ++ component ∷ [] }
        requires inside { component < length (made_of self.now).routes }
        ensures same { Stays self.now pass.old pass.new }
        ensures noted { NotedSince (deed.Clear component ∷ []) pass.old pass.new }
        ensures thread { thread_of pass.new ≡ knowing pass.old
            (clearing_but (seat_of pass.old) (but_last (seat_of pass.old).clearing)) }
    {
        laws::flag_stores();
        let c = component as usize;
        let shared = &self.table.shared;
        shared.store::<Clear>(&mut pass.seat, 4 * c + 6, 0);
    }
}
