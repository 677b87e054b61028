// The command `split`.
ghost use Rattle.std.specs.Prelude.{◌≡◌};
ghost use Rattle.cy_args.specs.Command as command;
ghost use Rattle.cy_commands.specs.Due.{IsDueFor};
ghost use Rattle.cy_commands.specs.Line.{bytes_of_line};
ghost use Rattle.cy_commands.specs.private.KeptEnds.{AreApart};
ghost use Rattle.cy_args.specs.Views.{split_words_of};

use crate::due::{Due, out_of_memory};
use crate::kept::{LINE_ROOM, due_kept, due_unkept, test_kept};
use crate::unset::due_after_failed_setup;
use cy_args::Split;
use cy_msg::Filter;
use cy_store::Store;
use std::alloc::Global;
use std::thread::Threads;

// What is due for `split` with these words and their filter.
fn split_by<'a, S: Store, R: Threads + Sync>(
    rt: &R,
    alloc: Global,
    split: &Split<'a>,
    filter: &Filter,
    store: &mut S,
) -> Due<'a>
    requires filter { filter.now ≡ (split_words_of split.now).filter }
    requires apart { AreApart (S.shows store.old).files split.now.input.now split.now.output.now }
    ensures { IsDueFor (command.Split (split_words_of split.now)) (S.shows store.old)
        (S.shows store.new) result.status (bytes_of_line result.line) }
{
    let Ok(line) = Vec::with_capacity(alloc, LINE_ROOM) else {
        return out_of_memory();
    };
    match cy_tools::split(rt, alloc, store, split.input, split.output, filter) {
        Ok(made) => due_kept(line, made.messages, " of ", u64::from(made.of)),
        Err(error) => {
            drop(line);
            due_unkept(alloc, split.input, split.output, error)
        }
    }
}

// What is due for `split` of a record, where another file is named for what is written.
fn split_apart<'a, S: Store, R: Threads + Sync>(
    rt: &R,
    alloc: Global,
    split: &Split<'a>,
    store: &mut S,
) -> Due<'a>
    requires { AreApart (S.shows store.old).files split.now.input.now split.now.output.now }
    ensures { IsDueFor (command.Split (split_words_of split.now)) (S.shows store.old)
        (S.shows store.new) result.status (bytes_of_line result.line) }
{
    let Ok(filter) = split.filter(alloc) else {
        return out_of_memory();
    };
    let due = split_by(rt, alloc, split, &filter, store);
    drop(filter);
    due
}

/// What is due for `split` of a record: one is written of the messages that the words let through,
/// and the line tells how many these are, and of how many.
pub fn run_split<'a, S: Store, R: Threads + Sync>(
    rt: &R,
    alloc: Global,
    split: &Split<'a>,
    store: &mut S,
) -> Due<'a>
    ensures { IsDueFor (command.Split (split_words_of split.now)) (S.shows store.old)
        (S.shows store.new) result.status (bytes_of_line result.line) }
{
    match test_kept(alloc, store, split.input, split.output) {
        Ok(()) => split_apart(rt, alloc, split, store),
        Err(error) => due_after_failed_setup(alloc, error),
    }
}
