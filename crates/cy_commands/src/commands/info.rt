// The command `info`.
ghost use Rattle.std.specs.Prelude.{◌≡◌};
ghost use Rattle.cy_args.specs.Command as command;
ghost use Rattle.cy_commands.specs.Due.{IsDueFor};
ghost use Rattle.cy_commands.specs.Line.{bytes_of_line};
ghost use Rattle.cy_args.specs.Views.{info_words_of};

use crate::due::{Due, out_of_memory};
use crate::line::Line;
use crate::status::Status;
use crate::unset::due_after_failed_setup;
use cy_args::Info;
use cy_info::info_text;
use cy_setup::read_record;
use cy_store::Store;
use std::alloc::Global;
use std::thread::Threads;

/// What is due for `info` of a record: the text that tells what it is, or why it is not read.
/// Nothing is written to the store.
pub fn run_info<'a, S: Store, R: Threads + Sync>(
    rt: &R,
    alloc: Global,
    info: &Info<'a>,
    store: &mut S,
) -> Due<'a>
    ensures { IsDueFor (command.Info (info_words_of info.now)) (S.shows store.old)
        (S.shows store.new) result.status (bytes_of_line result.line) }
{
    let record = match read_record(rt, alloc, store, info.file) {
        Ok(record) => record,
        Err(error) => return due_after_failed_setup(alloc, error),
    };
    let text = info_text(alloc, &record);
    drop(record);
    match text {
        Ok(text) => Due {
            status: Status::Done,
            line: Line::Made(text),
        },
        Err(_) => out_of_memory(),
    }
}
