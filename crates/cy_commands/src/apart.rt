// Which files a play may write, and the play that is set up if it may.
ghost use Rattle.std.specs.Prelude.{◌≡◌, ℕ, List, map, Ok, IfOk, IfSome, IsErrOf};
ghost use Rattle.cy_store.specs.Store.{StoreView};
ghost use Rattle.cy_msg.specs.Request.{HasReader};
ghost use Rattle.cy_setup.specs.Comes.{IsJudged};
ghost use Rattle.cy_setup.specs.Setup.{IsSetUp};
ghost use Rattle.cy_setup.specs.Steps.{configured};
ghost use Rattle.cy_args.specs.PlayViews.{play_words_of};
ghost use Rattle.cy_commands.specs.Commands.PlayWork.{others_of, outputs_apart};
ghost use Rattle.cy_commands.specs.PlayEnds.{SetsUp};
ghost use Rattle.cy_commands.specs.private.PlayWrites.{ReadsReplay};

use crate::play::read_files;
use cy_args::Play;
use cy_setup::{Configuration, Replay, STANDARD_OUTPUT, SetupError, files_read, test_apart};
use cy_store::Store;
use std::alloc::{AllocError, Global};
use std::thread::Threads;

// The names of the files that a play reads, and of standard output.
fn others_of<'a>(
    alloc: Global,
    play: &Play<'a>,
    configuration: &'a Configuration,
) -> Result<Vec<&'a str>, AllocError>
    ensures { IfOk result (λ names. map (λ n. n.now) names.items
        ≡ others_of (play_words_of play.now) (configured configuration.now)) }
{
    let mut names = files_read(alloc, play.components, play.input, configuration)?;
    names.push(STANDARD_OUTPUT)?;
    Ok(names)
}

// Tests that the files which a play writes are none of those that it reads, and two.
fn test_outputs<S: Store>(
    alloc: Global,
    store: &mut S,
    play: &Play,
    configuration: &Configuration,
) -> Result<(), SetupError>
    ensures same { S.shows store.new ≡ S.shows store.old }
    ensures apart { IfSome (S.shows store.old).files (λ _. IsJudged (λ _. tt)
        (outputs_apart (play_words_of play.now) (configured configuration.now)) result) }
    ensures unread { (file : List ℕ) → IsErrOf result (SetupError.Store file) → ⊥ }
{
    let mut names = others_of(alloc, play, configuration)?;
    match test_apart(alloc, store, play.output, names.as_slice()) {
        Ok(()) => {
            names.push(play.output)?;
            test_apart(alloc, store, play.trace, names.as_slice())
        }
        Err(error) => Err(error),
    }
}

// A play that is set up, once the names of what it writes were looked at.
fn ready_with<S: Store>(
    alloc: Global,
    store: &mut S,
    play: &Play,
    replay: Replay,
) -> Result<Replay, SetupError>
    requires { IsSetUp (play_words_of play.now).request replay }
    ensures comes { (before : StoreView) → ReadsReplay (play_words_of play.now) before
        (S.shows store.old) (Ok replay)
        → SetsUp (play_words_of play.now) before (S.shows store.new) result }
    ensures set_up { IfOk result (IsSetUp (play_words_of play.now).request) }
{
    match test_outputs(alloc, store, play, &replay.configuration) {
        Ok(()) => Ok(replay),
        Err(error) => {
            drop(replay);
            Err(error)
        }
    }
}

/// Reads the files of a play, sets up what is played, and looks at the names of what is written.
pub(crate) fn ready<S: Store, R: Threads + Sync>(
    rt: &R,
    alloc: Global,
    store: &mut S,
    play: &Play,
) -> Result<Replay, SetupError>
    requires { HasReader (play_words_of play.now).request.components }
    ensures comes { SetsUp (play_words_of play.now) (S.shows store.old) (S.shows store.new) result }
    ensures set_up { IfOk result (IsSetUp (play_words_of play.now).request) }
{
    match read_files(rt, alloc, store, play) {
        Ok(replay) => ready_with(alloc, store, play, replay),
        Err(error) => Err(error),
    }
}
