// The commands `play` and `pass` on one thread.
ghost use Rattle.std.specs.Prelude.{◌≡◌, ℕ, length, Ok, IfOk, IsErrOf};
ghost use Rattle.std.specs.Prelude.{IsOkUnless};
ghost use Rattle.cy_store.specs.Store.{StoreView, WriteRose};
ghost use Rattle.wake_core.specs.LawfulRun.{Quiet};
ghost use Rattle.wake_core.specs.Plain.{opening_world};
ghost use Rattle.wake_core.specs.Rest.{run_shown};
ghost use Rattle.wake_core.specs.Run.{routes_of};
ghost use Rattle.wake_core.specs.Plain.{played_count};
ghost use Rattle.wake_core.specs.WorldOf.{plain_of};
ghost use Rattle.cy_setup.specs.Comes.{ComesTo};
ghost use Rattle.cy_msg.specs.Request.{HasReader};
ghost use Rattle.cy_setup.specs.Setup.{IsAsked, IsSetUp, replayed};
ghost use Rattle.cy_commands.specs.declared.failure.File.{File};
ghost use Rattle.cy_args.specs.Command as command;
ghost use Rattle.cy_commands.specs.Due.{IsDueFor};
ghost use Rattle.cy_commands.specs.Line.{bytes_of_line};
ghost use Rattle.cy_commands.specs.PlayEnds.{SetsUp, HasRun};
ghost use Rattle.cy_commands.specs.private.PlayWrites.{IsDueAfterPlay, IsLine, WritesPlay};
ghost use Rattle.cy_commands.specs.private.PlayWrites.{unwritten};
ghost use Rattle.cy_args.specs.PlayViews.{play_words_of};
ghost use Rattle.cy_commands.specs.Commands.PlayWork.{replayed_in};
ghost use Rattle.cy_trace.specs.CallCount.{calls_from};
ghost use Rattle.cy_report.specs.Summary.{summary_line as line_of};

use crate::due::{Due, out_of_memory, store_failed};
use crate::failure::{Failure, File};
use crate::line::Line;
use crate::status::Status;
use crate::trace_file::write_trace;
use cy_args::Play;
use cy_comp::Wiring;
use cy_msg::{Bytes, Request};
use cy_recording::{Played, played_places_are_there, write_record};
use cy_report::summary_line;
use cy_setup::{Replay, SetupError, set_up};
use cy_store::Store;
use cy_trace::TraceError;
use cy_trace_text::trace_is_read_back;
use cy_writer::WriteError;
use std::alloc::{AllocError, Global};
use std::thread::Threads;
use wake_core::{CoreError, World, laws, serial};

/// Reads the files, and sets up what is played.
pub(crate) fn read_files<S: Store, R: Threads + Sync>(
    rt: &R,
    alloc: Global,
    store: &mut S,
    play: &Play,
) -> Result<Replay, SetupError>
    requires { HasReader (play_words_of play.now).request.components }
    ensures comes { ComesTo replayed (replayed_in (play_words_of play.now))
        (IsAsked (play_words_of play.now).request (S.shows store.old).files)
        (S.shows store.old) (S.shows store.new) result }
    ensures set_up { IfOk result (IsSetUp (play_words_of play.now).request) }
{
    let filter = play.filter(alloc)?;
    let request = Request {
        components: play.components,
        input: play.input,
        filter: &filter,
        stop: play.stop,
    };
    let replay = set_up(rt, alloc, store, &request);
    drop(filter);
    replay
}

/// The world of a replay, with its stop, in which nothing has happened.
pub fn opening(alloc: Global, play: &Play, replay: &Replay) -> Result<World, AllocError>
    requires { IsSetUp (play_words_of play.now).request replay.now }
    ensures opens { IfOk result (λ w. plain_of w
        ≡ opening_world (routes_of replay.now.wiring.plans) replay.now.counts replay.now.stop) }
{
    match World::new(alloc, &replay.wiring, replay.counts.as_slice(), replay.stop) {
        Ok(world) => Ok(world),
        Err(CoreError::Memory) => Err(AllocError),
        Err(CoreError::TooMany { .. }) => unreachable!(),
    }
}

/// The world after a replay was played serially.
pub fn played_world(alloc: Global, play: &Play, replay: &Replay) -> Result<World, AllocError>
    requires { IsSetUp (play_words_of play.now).request replay.now }
    ensures run { IfOk result (λ w. HasRun (play_words_of play.now).serial replay.now
        (plain_of w)) }
{
    let mut world = opening(alloc, play, replay)?;
    serial(&mut world, &replay.list, &replay.placement);
    played_places_are_there();
    laws::places();
    trace_is_read_back(&world, &replay.wiring, replay.list.shadowed);
    Ok(world)
}

// The wiring of a replay. All else is given back: the text of the trace may have the room of the
// record that was read and of the play list.
fn wiring_of(replay: Replay) -> Wiring
    ensures { result ≡ replay.wiring }
{
    let Replay {
        configuration,
        recorded,
        wiring,
        placement,
        list,
        stop: _,
        counts,
    } = replay;
    drop(configuration);
    drop(recorded);
    drop(placement);
    drop(list);
    drop(counts);
    wiring
}

// The line that tells of the run of a world that was made for a wiring.
fn line_made(alloc: Global, wiring: &Wiring, shadowed: u32, world: &World) -> Result<Bytes, Failure>
    requires quiet { Quiet (plain_of world.now) }
    requires routes { (plain_of world.now).routes ≡ routes_of wiring.now.plans }
    ensures line { IfOk result (λ line. line
        ≡ line_of (played_count (plain_of world.now)) shadowed
        (calls_from (run_shown (plain_of world.now)) 0 wiring.now.plans)
        (length (plain_of world.now).tape)) }
    ensures only_memory { IsOkUnless result Failure.Memory }
{
    match summary_line(alloc, world, wiring, shadowed) {
        Ok(line) => Ok(line),
        Err(TraceError::Memory) => Err(Failure::Memory),
        Err(TraceError::Bad { .. }) => unreachable!(),
    }
}

// A failure to write a file.
fn unwritten(file: File, error: WriteError) -> Failure
    ensures { result ≡ unwritten file error }
{
    match error {
        WriteError::Failed => Failure::Store(file),
        WriteError::Broken => Failure::Store(file),
        WriteError::Memory => Failure::Memory,
    }
}

// Writes the record of a replay's run, and then its trace. Answers the line that tells of it.
pub(crate) fn write_both<S: Store, R: Threads + Sync>(
    rt: &R,
    alloc: Global,
    store: &mut S,
    play: &Play,
    replay: Replay,
    world: &World,
) -> Result<Bytes, Failure>
    requires set_up { IsSetUp (play_words_of play.now).request replay }
    requires run { HasRun (play_words_of play.now).serial replay (plain_of world.now) }
    ensures writes { WritesPlay (play_words_of play.now) replay (plain_of world.now)
        (S.shows store.old) (S.shows store.new) result }
    ensures line { IfOk result (IsLine replay (plain_of world.now)) }
    ensures causes { (f : File) → IsErrOf result (Failure.Store f) → WriteRose (S.shows store.old)
        (S.shows store.new) }
{
    let played = Played {
        whole: &replay.recorded,
        wiring: &replay.wiring,
        list: &replay.list,
    };
    if let Err(error) = write_record(alloc, store, play.output, &played, world.tape_list()) {
        drop(replay);
        return Err(unwritten(File::Output, error));
    }
    let shadowed = replay.list.shadowed;
    let wiring = wiring_of(replay);
    let line = line_made(alloc, &wiring, shadowed, world)?;
    if let Err(error) = write_trace(rt, alloc, store, play.trace, &wiring, shadowed, world) {
        return Err(unwritten(File::Trace, error));
    }
    Ok(line)
}

// What is due where a replay that was set up was not played and written.
fn due_after<'a>(play: &Play<'a>, failure: Failure) -> Due<'a>
    ensures { IsDueAfterPlay (play_words_of play.now) failure result.status
        (bytes_of_line result.line) }
{
    match failure {
        Failure::Memory => out_of_memory(),
        Failure::Store(file) => store_failed(match file {
            File::Output => play.output,
            File::Trace => play.trace,
        }),
    }
}

/// What is due once a replay that was set up was played, where there was memory for it: its record
/// and its trace are written.
pub fn due_played<'a, S: Store, R: Threads + Sync>(
    rt: &R,
    alloc: Global,
    store: &mut S,
    play: &Play<'a>,
    replay: Replay,
    played: Result<World, AllocError>,
) -> Due<'a>
    requires set_up { IsSetUp (play_words_of play.now).request replay }
    requires run { IfOk played (λ w. HasRun (play_words_of play.now).serial replay
        (plain_of w)) }
    ensures { (before : StoreView) → SetsUp (play_words_of play.now) before (S.shows store.old)
        (Ok replay) → IsDueFor (command.Play (play_words_of play.now)) before
        (S.shows store.new) result.status (bytes_of_line result.line) }
{
    let Ok(world) = played else {
        drop(replay);
        return out_of_memory();
    };
    let written = write_both(rt, alloc, store, play, replay, &world);
    drop(world);
    match written {
        Ok(line) => Due {
            status: Status::Done,
            line: Line::Made(line),
        },
        Err(failure) => due_after(play, failure),
    }
}

/// What is due once a replay that was set up was played serially, and written.
pub(crate) fn due_played_alone<'a, S: Store, R: Threads + Sync>(
    rt: &R,
    alloc: Global,
    store: &mut S,
    play: &Play<'a>,
    replay: Replay,
) -> Due<'a>
    requires set_up { IsSetUp (play_words_of play.now).request replay }
    ensures { (before : StoreView) → SetsUp (play_words_of play.now) before (S.shows store.old)
        (Ok replay) → IsDueFor (command.Play (play_words_of play.now)) before
        (S.shows store.new) result.status (bytes_of_line result.line) }
{
    let played = played_world(alloc, play, &replay);
    due_played(rt, alloc, store, play, replay, played)
}
