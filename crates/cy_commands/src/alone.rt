// What is due for what the words ask for, on one thread.
ghost use Rattle.std.specs.Prelude.{ℕ, List, Option};
ghost use Rattle.cy_commands.specs.Due.{IsDue};
ghost use Rattle.cy_commands.specs.Line.{bytes_of_line};
ghost use Rattle.cy_args.specs.Asking.{IsReadAs};
ghost use Rattle.cy_args.specs.Command as asked;
ghost use Rattle.cy_args.specs.Command.{AsksStill, IsAsked};

use crate::begun::{Begun, begin};
use crate::due::Due;
use crate::play::due_played_alone;
use cy_args::{CommandWords, WordsError};
use cy_store::Store;
use std::alloc::Global;
use std::thread::Threads;

/// Does what words that were read ask for, components on this thread, and says which status is due.
/// Where they were read for a world without threads, a play is serial.
pub fn due_of<'s, S: Store, R: Threads + Sync>(
    rt: &R,
    alloc: Global,
    read: &'s Result<Option<CommandWords<'_>>, WordsError>,
    store: &mut S,
) -> Due<'s>
    ensures { (words : List (List ℕ)) (command : Option asked.Command)
        → IsReadAs (AsksStill words) words read.now → IsAsked (AsksStill words) command
        → IsDue command (S.shows store.old) (S.shows store.new) result.status
        (bytes_of_line result.line) }
{
    match begin(rt, alloc, read, store) {
        Begun::Ended(due) => due,
        Begun::SetUp(play, replay) => due_played_alone(rt, alloc, store, &play, replay),
    }
}
