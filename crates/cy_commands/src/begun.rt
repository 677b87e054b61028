// What words ask for, as far as nothing is played: either it is done, or a play is set up.
ghost use Rattle.std.specs.Prelude.{ℕ, ◌≡◌, List, Option};
ghost use Rattle.cy_commands.specs.Begun.{HasBegun, IsReady};
ghost use Rattle.cy_commands.specs.Line.{bytes_of_line};
ghost use Rattle.cy_commands.specs.Lines.{usage_line};
ghost use Rattle.cy_args.specs.Asking.{IsReadAs};
ghost use Rattle.cy_args.specs.Command as asked;
ghost use Rattle.cy_args.specs.Command.{Asks, AsksStill, IsAsked};

use crate::commands::begin_command;
use crate::due::{Due, out_of_memory};
use crate::fault_text::USAGE_LINE;
use crate::line::Line;
use crate::status::Status;
use cy_args::{CommandWords, Play, WordsError};
use cy_setup::Replay;
use cy_store::Store;
use std::alloc::Global;
use std::thread::Threads;

/// What was begun.
#[derive(Drop)]
pub enum Begun<'a> {
    /// It has ended, and this is due.
    Ended(Due<'a>),
    /// The files of a play are read, and this is to be played and written.
    SetUp(Play<'a>, Replay),
}

// What is due where the words ask for no command.
fn misused<'a>() -> Due<'a>
    ensures status { result.status ≡ Status.Usage }
    ensures line { bytes_of_line result.line ≡ usage_line }
{
    Due {
        status: Status::Usage,
        line: Line::Fixed(USAGE_LINE),
    }
}

/// Does what words that were read ask for, but for playing: a play is set up alone, so that it may
/// then be played on one thread or on several. All reading is done before the first file is made.
pub fn begin<'s, S: Store, R: Threads + Sync>(
    rt: &R,
    alloc: Global,
    read: &'s Result<Option<CommandWords<'_>>, WordsError>,
    store: &mut S,
) -> Begun<'s>
    ensures ready { IsReady result }
    ensures begun { (words : List (List ℕ)) (command : Option asked.Command)
        → IsReadAs (Asks words) words read.now → IsAsked (Asks words) command
        → HasBegun command (S.shows store.old) (S.shows store.new) result }
    ensures still { (words : List (List ℕ)) (command : Option asked.Command)
        → IsReadAs (AsksStill words) words read.now → IsAsked (AsksStill words) command
        → HasBegun command (S.shows store.old) (S.shows store.new) result }
{
    match read {
        Ok(Some(words)) => match words.command(alloc) {
            Ok(command) => begin_command(rt, alloc, &command, store),
            Err(WordsError::Memory) => Begun::Ended(out_of_memory()),
        },
        Ok(None) => Begun::Ended(misused()),
        Err(WordsError::Memory) => Begun::Ended(out_of_memory()),
    }
}
