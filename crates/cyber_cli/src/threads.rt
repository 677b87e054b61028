// The command `play` on threads.
ghost use Rattle.std.specs.Prelude.{◌≡◌, false, Ok, IfOk};
ghost use Rattle.cy_store.specs.Store.{StoreView};
ghost use Rattle.wake_core.specs.WorldOf.{plain_of};
ghost use Rattle.cy_setup.specs.Setup.{IsSetUp};
ghost use Rattle.cy_args.specs.Command as command;
ghost use Rattle.cy_commands.specs.Due.{IsDueFor};
ghost use Rattle.cy_commands.specs.Line.{bytes_of_line};
ghost use Rattle.cy_commands.specs.PlayEnds.{HasRun, SetsUp};
ghost use Rattle.cy_args.specs.PlayViews.{play_words_of};

use cy_args::Play;
use cy_commands::{Due, due_played, opening, played_world};
use cy_recording::played_places_are_there;
use cy_run::{Gate, run_threads};
use cy_setup::Replay;
use cy_store::Store;
use cy_trace_text::trace_is_read_back;
use std::alloc::{AllocError, Global};
use std::sync::Wait;
use std::thread::Threads;
use wake_core::{World, laws};

// The world after a replay was played on threads.
fn world_of_threads<G: Gate, R: Threads + Wait + Sync>(
    rt: &R,
    alloc: Global,
    play: &Play,
    replay: &Replay,
    gate: &G,
) -> Result<World, AllocError>
    requires set_up { IsSetUp (play_words_of play.now).request replay.now }
    requires threads { (play_words_of play.now).serial ≡ false }
    ensures run { IfOk result (λ w. HasRun (play_words_of play.now).serial replay.now
        (plain_of w)) }
{
    let world = opening(alloc, play, replay)?;
    let (wiring, list) = (&replay.wiring, &replay.list);
    let Ok(world) = run_threads(rt, alloc, world, wiring, list, &replay.placement, gate) else {
        return Err(AllocError);
    };
    played_places_are_there();
    laws::places();
    trace_is_read_back(&world, wiring, replay.list.shadowed);
    Ok(world)
}

// The world after a replay was played as the words say.
fn world_as_asked<G: Gate, R: Threads + Wait + Sync>(
    rt: &R,
    alloc: Global,
    play: &Play,
    replay: &Replay,
    gate: &G,
) -> Result<World, AllocError>
    requires { IsSetUp (play_words_of play.now).request replay.now }
    ensures run { IfOk result (λ w. HasRun (play_words_of play.now).serial replay.now
        (plain_of w)) }
{
    if play.serial {
        played_world(alloc, play, replay)
    } else {
        world_of_threads(rt, alloc, play, replay, gate)
    }
}

/// What is due once a replay that was set up was played, on threads unless the play is serial, and
/// written. It may wait.
pub fn due_played_with_threads<'a, S: Store, G: Gate, R: Threads + Wait + Sync>(
    rt: &R,
    alloc: Global,
    store: &mut S,
    play: &Play<'a>,
    replay: Replay,
    gate: &G,
) -> Due<'a>
    requires set_up { IsSetUp (play_words_of play.now).request replay }
    ensures { (before : StoreView) → SetsUp (play_words_of play.now) before (S.shows store.old)
        (Ok replay) → IsDueFor (command.Play (play_words_of play.now)) before
        (S.shows store.new) result.status (bytes_of_line result.line) }
{
    let played = world_as_asked(rt, alloc, play, &replay, gate);
    due_played(rt, alloc, store, play, replay, played)
}
