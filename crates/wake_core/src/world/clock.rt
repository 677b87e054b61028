// The clock, the stop, and the end of the play.
use crate::World;

impl World {
    ghost use Rattle.std.specs.Prelude.{◌≡◌, ◌≤◌};
    ghost use Rattle.wake_core.specs.Events.{Ticks, Stops, Closes};
    ghost use Rattle.wake_core.specs.WorldOf.{plain_of, to_step};
    ghost use Rattle.wake_core.specs.WorldCalls.{MayStop, MayClose};

    /// The player sets the clock forward, to a time in nanoseconds.
    pub fn tick(&mut self, thread: u32, time: u64)
        requires player { thread ≡ 0 }
        requires later { (plain_of self.old).clock ≤ time }
        ensures event { Ticks time (plain_of self.old) (plain_of self.new) }
        ensures steps { to_step self.new ≡ to_step self.old }
    {
        self.clock = time;
    }

    /// The player raises the stop that the world was made with, when as many messages were played
    /// as it says.
    pub fn stop(&mut self, thread: u32)
        requires player { thread ≡ 0 }
        requires event { MayStop (plain_of self.old) }
        ensures event { Stops (plain_of self.old) (plain_of self.new) }
        ensures steps { to_step self.new ≡ to_step self.old }
    {
        self.raised = true;
    }

    /// The player says that all was played, and the stop raised where one is given.
    pub fn close(&mut self, thread: u32)
        requires player { thread ≡ 0 }
        requires event { MayClose (plain_of self.old) }
        ensures event { Closes (plain_of self.old) (plain_of self.new) }
        ensures steps { to_step self.new ≡ to_step self.old }
    {
        self.closing = true;
    }
}
