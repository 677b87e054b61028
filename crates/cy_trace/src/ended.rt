// What components of a world have come to, whose run has come to its end.
ghost use Rattle.std.specs.Prelude.{◌≡◌, ◌<◌, length};
ghost use Rattle.wake_core.specs.WorldOf.{plain_of};
ghost use Rattle.wake_core.specs.LawfulRun.{Quiet};

use cy_comp::Calls;
use wake_core::World;

/// The calls of a component of a world whose run has come to its end. Nobody holds a croutine
/// there, so none of them is still to be stepped.
pub fn calls_of(world: &World, component: u32) -> Calls<'_>
    requires quiet { Quiet (plain_of world.now) }
    requires known { component < length (plain_of world.now).routes }
    ensures { result ≡ (plain_of world.now).calls component }
{
    world.sound();
    world.routine(component).calls()
}
