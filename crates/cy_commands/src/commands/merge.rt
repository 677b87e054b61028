// The command `merge`.
ghost use Rattle.std.specs.Prelude.{◌≡◌, ◌≤◌, [], length, map, vec_capacity};
ghost use Rattle.cy_salvage.specs.Joined.{Gathered, IsOrdered};
ghost use Rattle.cy_commands.specs.declared.kept.TheConstants.{LINE_ROOM};
ghost use Rattle.cy_store.specs.Store.{StoreView};
ghost use Rattle.cy_args.specs.Command as command;
ghost use Rattle.cy_commands.specs.Due.{IsDueFor};
ghost use Rattle.cy_commands.specs.Line.{bytes_of_line};
ghost use Rattle.cy_commands.specs.private.MergeEnds.{AreInputs, IsApartFrom, IsDueUnwritten};
ghost use Rattle.cy_commands.specs.private.MergeEnds.{IsUnitedIn};
ghost use Rattle.cy_args.specs.Views.{merge_words_of};

use crate::due::{Due, out_of_memory, store_failed};
use crate::kept::{LINE_ROOM, due_kept};
use crate::unset::due_after_failed_setup;
use cy_args::Merge;
use cy_salvage::Merged;
use cy_setup::{STANDARD_OUTPUT, SetupError, read_merged, test_apart};
use cy_store::Store;
use cy_tools::write_merged;
use cy_writer::WriteError;
use std::alloc::Global;
use std::thread::Threads;

// Tests that what is written is not standard output, and none of the files that are read.
fn test_inputs<S: Store>(
    alloc: Global,
    store: &mut S,
    output: &str,
    inputs: &[&str],
) -> Result<(), SetupError>
    ensures same { S.shows store.new ≡ S.shows store.old }
    ensures tested { AreInputs (S.shows store.old).files (map (λ n. n.now) inputs.now) output.now
        result }
{
    match test_apart(alloc, store, output, &[STANDARD_OUTPUT]) {
        Ok(()) => test_apart(alloc, store, output, inputs),
        Err(error) => Err(error),
    }
}

// What is due where the record was not written.
fn due_unwritten(output: &str, error: WriteError) -> Due<'_>
    ensures { IsDueUnwritten output.now error result.status (bytes_of_line result.line) }
{
    match error {
        WriteError::Failed | WriteError::Broken => store_failed(output),
        WriteError::Memory => out_of_memory(),
    }
}

// Writes records that are joined and in the order of time, and says what is due then.
fn write_sorted<'a, S: Store>(
    alloc: Global,
    merge: &Merge<'a>,
    sorted: &Merged,
    records: usize,
    line: Vec<u8>,
    store: &mut S,
) -> Due<'a>
    requires many { records ≡ length (merge_words_of merge.now).inputs }
    requires empty { line.items ≡ [] }
    requires room { LINE_ROOM ≤ vec_capacity line }
    ensures { (before : StoreView) (read : Gathered) → IsUnitedIn (merge_words_of merge.now) before
        (S.shows store.old) read → IsOrdered read sorted.now
        → IsDueFor (command.Merge (merge_words_of merge.now)) before (S.shows store.new)
        result.status (bytes_of_line result.line) }
{
    match write_merged(alloc, store, merge.output, sorted) {
        Ok(messages) => due_kept(line, messages, ", records ", records as u64),
        Err(error) => {
            drop(line);
            due_unwritten(merge.output, error)
        }
    }
}

// Puts records that are joined in the order of time, and writes them.
fn write_in_time<'a, S: Store>(
    alloc: Global,
    merge: &Merge<'a>,
    merged: Merged,
    records: usize,
    line: Vec<u8>,
    store: &mut S,
) -> Due<'a>
    requires many { records ≡ length (merge_words_of merge.now).inputs }
    requires empty { line.items ≡ [] }
    requires room { LINE_ROOM ≤ vec_capacity line }
    ensures { (before : StoreView) → IsUnitedIn (merge_words_of merge.now) before
        (S.shows store.old) merged
        → IsDueFor (command.Merge (merge_words_of merge.now)) before (S.shows store.new)
        result.status (bytes_of_line result.line) }
{
    match merged.in_time() {
        Ok(sorted) => {
            let due = write_sorted(alloc, merge, &sorted, records, line, store);
            drop(sorted);
            due
        }
        Err(_) => {
            drop(line);
            out_of_memory()
        }
    }
}

// What is due for `merge` of records, where another file is named for what is written. It takes
// room for the line before it reads.
fn merge_apart<'a, S: Store, R: Threads + Sync>(
    rt: &R,
    alloc: Global,
    merge: &Merge<'a>,
    inputs: &[&str],
    store: &mut S,
) -> Due<'a>
    requires inputs { map (λ n. n.now) inputs.now ≡ (merge_words_of merge.now).inputs }
    requires apart { IsApartFrom (S.shows store.old).files (merge_words_of merge.now).inputs
        merge.now.output.now }
    ensures { IsDueFor (command.Merge (merge_words_of merge.now)) (S.shows store.old)
        (S.shows store.new) result.status (bytes_of_line result.line) }
{
    let Ok(line) = Vec::with_capacity(alloc, LINE_ROOM) else {
        return out_of_memory();
    };
    match read_merged(rt, alloc, store, inputs) {
        Ok(merged) => write_in_time(alloc, merge, merged, inputs.len(), line, store),
        Err(error) => {
            drop(line);
            due_after_failed_setup(alloc, error)
        }
    }
}

// The same once the names were looked at.
fn merge_named<'a, S: Store, R: Threads + Sync>(
    rt: &R,
    alloc: Global,
    merge: &Merge<'a>,
    inputs: &[&str],
    store: &mut S,
) -> Due<'a>
    requires { map (λ n. n.now) inputs.now ≡ (merge_words_of merge.now).inputs }
    ensures { IsDueFor (command.Merge (merge_words_of merge.now)) (S.shows store.old)
        (S.shows store.new) result.status (bytes_of_line result.line) }
{
    match test_inputs(alloc, store, merge.output, inputs) {
        Ok(()) => merge_apart(rt, alloc, merge, inputs, store),
        Err(error) => due_after_failed_setup(alloc, error),
    }
}

/// What is due for `merge` of records: one is written of all their messages in the order of time,
/// and the line tells how many these are, and of how many records.
pub fn run_merge<'a, S: Store, R: Threads + Sync>(
    rt: &R,
    alloc: Global,
    merge: &Merge<'a>,
    store: &mut S,
) -> Due<'a>
    ensures { IsDueFor (command.Merge (merge_words_of merge.now)) (S.shows store.old)
        (S.shows store.new) result.status (bytes_of_line result.line) }
{
    let Ok(inputs) = merge.inputs(alloc) else {
        return out_of_memory();
    };
    let due = merge_named(rt, alloc, merge, inputs.as_slice(), store);
    drop(inputs);
    due
}
