// Events that belong together, of component 0 in the hand of thread 1 and of the player.
ghost use Rattle.std.specs.Prelude.{◌≡◌, None, false, not, is_some, option_map};
ghost use Rattle.cy_comp.specs.declared.call.Call.{Call};
ghost use Rattle.wake_core.specs.Run.{set_at};
ghost use Rattle.wake_core.specs.Events.{is_waiting};
ghost use Rattle.wake_core.specs.WorldOf.{plain_of, to_step};
ghost use Rattle.wake_core_tests.specs.Groups.{NoneToStep, Becomes, MayCome, MayTell, MayTake};
ghost use Rattle.wake_core_tests.specs.Groups.{MayTakeWoken, MayAskAgain, MayGiveBack, MaySendOn};
ghost use Rattle.wake_core_tests.specs.Groups.{MayTurn, after_message, after_news, after_take};
ghost use Rattle.wake_core_tests.specs.Groups.{after_wake, after_asking, after_fetching};
ghost use Rattle.wake_core_tests.specs.Groups.{after_back, after_output, after_turn, found_then};

use cy_comp::State;
use cy_msg::{Token, Tuple};
use wake_core::World;

/// The player plays a message at its time, which comes to the component as its first reader.
/// Whether the component waits then.
pub(crate) fn play(world: &mut World, token: Token) -> bool
    requires { MayCome token (plain_of world.old) }
    ensures becomes { Becomes (after_message token) world.old world.new }
    ensures waits { result ≡ is_waiting ((plain_of world.old).states 0) }
{
    world.tick(0, token.time);
    world.tape(0, token);
    world.fill(0, 0, 0, token);
    world.look(0, 0)
}

/// The same while the component waits: the player clears its flag.
pub(crate) fn tell(world: &mut World, token: Token)
    requires { MayTell token (plain_of world.old) }
    ensures { Becomes (after_news token) world.old world.new }
{
    play(world, token);
    world.clear(0, 0);
}

/// Thread 1 takes the component and spends its flag. Whether the flag was clear.
pub(crate) fn take(world: &mut World) -> bool
    requires { MayTake (plain_of world.old) }
    ensures becomes { Becomes after_take world.old world.new }
    ensures clear { result ≡ not ((plain_of world.old).spent 0) }
{
    world.acquire(1, 0);
    world.spend(1)
}

/// Thread 1 takes the component, finds its flag clear, and makes it READY.
pub(crate) fn take_woken(world: &mut World)
    requires { MayTakeWoken (plain_of world.old) }
    ensures { Becomes after_wake world.old world.new }
{
    take(world);
    world.ready(1);
}

// Thread 1 looks whether the component in hand is stopped, and asks for it. The answer is that it
// isn't.
fn ask(world: &mut World) -> bool
    requires { MayAskAgain (plain_of world.old) }
    ensures plain { plain_of world.new ≡ after_asking (plain_of world.old) }
    ensures answer { result ≡ false }
    ensures steps { to_step world.new ≡ to_step world.old }
{
    let is_stopped = world.check(1);
    world.ask(1);
    is_stopped
}

// Thread 1 asks and fetches for the component in hand.
fn fetch(world: &mut World) -> Option<Tuple>
    requires { MayAskAgain (plain_of world.old) }
    ensures plain { plain_of world.new ≡ after_fetching (plain_of world.old) }
    ensures answer { result ≡ option_map (λ (x : Call). x.tuple)
        (found_then (plain_of world.old)) }
    ensures steps { to_step world.new ≡ set_at 0 result (to_step world.old) }
{
    ask(world);
    world.fetch(1)
}

/// Thread 1 asks and fetches for the component in hand, and steps it on what is found. Whether
/// anything is.
pub(crate) fn call(world: &mut World) -> bool
    requires { MayAskAgain (plain_of world.old) }
    ensures becomes { Becomes after_fetching world.old world.new }
    ensures found { result ≡ is_some (found_then (plain_of world.old)) }
{
    match fetch(world) {
        Some(tuple) => {
            world.step(1, &tuple);
            true
        }
        None => false,
    }
}

/// Thread 1 stores what the component in hand is to do next, and gives it back.
pub(crate) fn give_back(world: &mut World, state: State)
    requires may { MayGiveBack state (plain_of world.old) }
    requires stepped { NoneToStep world.old }
    ensures { Becomes (after_back state) world.old world.new }
{
    world.yield_as(1, state);
    world.release(1);
}

/// Thread 1 sends the output of the component's call, and gives the component back.
pub(crate) fn send_on(world: &mut World, token: Token)
    requires may { MaySendOn token (plain_of world.old) }
    requires stepped { NoneToStep world.old }
    ensures { Becomes (after_output token) world.old world.new }
{
    world.tape(1, token);
    give_back(world, State::Ready);
}

/// Thread 1 takes the component, calls it, sends its output, and gives it back.
pub(crate) fn turn(world: &mut World, token: Token)
    requires may { MayTurn token (plain_of world.old) }
    requires stepped { NoneToStep world.old }
    ensures { Becomes (after_turn token) world.old world.new }
{
    take(world);
    call(world);
    send_on(world, token);
}
