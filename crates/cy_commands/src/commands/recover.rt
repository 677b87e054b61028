// The command `recover`.
ghost use Rattle.cy_args.specs.Command as command;
ghost use Rattle.cy_commands.specs.Due.{IsDueFor};
ghost use Rattle.cy_commands.specs.Line.{bytes_of_line};
ghost use Rattle.cy_commands.specs.private.KeptEnds.{AreApart};
ghost use Rattle.cy_args.specs.Views.{recover_words_of};

use crate::due::{Due, out_of_memory};
use crate::kept::{LINE_ROOM, due_kept, due_unkept, test_kept};
use crate::unset::due_after_failed_setup;
use cy_args::Recover;
use cy_store::Store;
use std::alloc::Global;
use std::thread::Threads;

// What is due for `recover` of a file, where another one is named for the record.
fn recover_apart<'a, S: Store, R: Threads + Sync>(
    rt: &R,
    alloc: Global,
    recover: &Recover<'a>,
    store: &mut S,
) -> Due<'a>
    requires { AreApart (S.shows store.old).files recover.now.input.now recover.now.output.now }
    ensures { IsDueFor (command.Recover (recover_words_of recover.now)) (S.shows store.old)
        (S.shows store.new) result.status (bytes_of_line result.line) }
{
    let Ok(line) = Vec::with_capacity(alloc, LINE_ROOM) else {
        return out_of_memory();
    };
    match cy_tools::recover(rt, alloc, store, recover.input, recover.output) {
        Ok(made) => due_kept(line, made.messages, ", dropped ", made.dropped),
        Err(error) => {
            drop(line);
            due_unkept(alloc, recover.input, recover.output, error)
        }
    }
}

/// What is due for `recover` of a file: a record is written of all messages that stand there before
/// the first fault, and the line tells how many these are and how many bytes were dropped.
pub fn run_recover<'a, S: Store, R: Threads + Sync>(
    rt: &R,
    alloc: Global,
    recover: &Recover<'a>,
    store: &mut S,
) -> Due<'a>
    ensures { IsDueFor (command.Recover (recover_words_of recover.now)) (S.shows store.old)
        (S.shows store.new) result.status (bytes_of_line result.line) }
{
    match test_kept(alloc, store, recover.input, recover.output) {
        Ok(()) => recover_apart(rt, alloc, recover, store),
        Err(error) => due_after_failed_setup(alloc, error),
    }
}
