// Telling the components that a message triggers.
ghost use Rattle.std.specs.Prelude.{◌≡◌};
ghost use Rattle.wake_core.specs.Events.{is_waiting};

use crate::World;
use cy_comp::State;

impl World {
    ghost use Rattle.std.specs.Prelude.{◌≡◌};
    ghost use Rattle.wake_core.specs.Events.{Looks, Clears, is_waiting};
    ghost use Rattle.wake_core.specs.WorldOf.{plain_of, to_step};
    ghost use Rattle.wake_core.specs.WorldCalls.{MayLook, MayClear};

    /// Looks at the state of the first component of a thread's news. One that waits for a message
    /// is to have its flag cleared. Whether it waits.
    pub fn look(&mut self, thread: u32, component: u32) -> bool
        requires { MayLook thread component (plain_of self.old) }
        ensures event { Looks thread component (plain_of self.old) (plain_of self.new) }
        ensures answer { result ≡ is_waiting ((plain_of self.old).states component) }
        ensures steps { to_step self.new ≡ to_step self.old }
    {
        let waits = waits(self.routines[component as usize].state());
        self.owed[thread as usize].look(component, waits);
        waits
    }

    /// Clears the flag of a component whose flag this thread has to clear.
    pub fn clear(&mut self, thread: u32, component: u32)
        requires { MayClear thread component (plain_of self.old) }
        ensures event { Clears thread component (plain_of self.old) (plain_of self.new) }
        ensures steps { to_step self.new ≡ to_step self.old }
    {
        self.owed[thread as usize].take_out(component);
        self.spent[component as usize] = false;
    }
}

// Whether a state is DATA_WAIT.
pub(super) fn waits(state: State) -> bool
    ensures { result ≡ is_waiting state }
{
    matches!(state, State::DataWait)
}
