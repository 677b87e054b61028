// What is due for a record of some messages of another.
ghost use Rattle.std.specs.Prelude.{◌≡◌, ◌≤◌, ◌+◌, ◌++◌, [], length, vec_len, vec_capacity};
ghost use Rattle.std.specs.Fmt.{decimal};
ghost use Rattle.cy_commands.specs.Line.{bytes_of_line};
ghost use Rattle.cy_commands.specs.declared.kept.TheConstants.{LINE_ROOM};
ghost use Rattle.cy_commands.specs.private.KeptEnds.{AreTested, IsDueKept, IsDueUnkept, file_name};

use crate::due::{Due, out_of_memory, store_failed};
use crate::line::Line;
use crate::status::Status;
use crate::unset::due_after_failed_setup;
use cy_msg::Bytes;
use cy_setup::{Fault, STANDARD_OUTPUT, SetupError, refused, test_apart};
use cy_store::Store;
use cy_tools::{File, ToolError};
use itoa::Buffer;
use std::alloc::Global;

/// As many bytes as a line has at most that tells of messages: two numbers of 20 digits, and 40
/// around them.
pub(crate) const LINE_ROOM: usize = 80;

/// Tests that what is written is another file than what is read, and not standard output.
pub(crate) fn test_kept<S: Store>(
    alloc: Global,
    store: &mut S,
    input: &str,
    output: &str,
) -> Result<(), SetupError>
    ensures same { S.shows store.new ≡ S.shows store.old }
    ensures tested { AreTested (S.shows store.old).files input.now output.now result }
{
    test_apart(alloc, store, output, &[STANDARD_OUTPUT, input])
}

// Adds bytes for which there is room.
fn add(to: &mut Vec<u8>, bytes: &[u8])
    requires { vec_len to.old + length bytes.now ≤ vec_capacity to.old }
    ensures added { to.new.items ≡ to.old.items ++ bytes.now }
    ensures len { vec_len to.new ≡ vec_len to.old + length bytes.now }
    ensures room { vec_capacity to.old ≤ vec_capacity to.new }
{
    match to.extend_from_slice(bytes) {
        Ok(()) => {}
        Err(_) => unreachable!(),
    }
}

// Adds a number in decimal, for which there is room.
fn add_number(to: &mut Vec<u8>, number: u64)
    requires { vec_len to.old + 20 ≤ vec_capacity to.old }
    ensures added { to.new.items ≡ to.old.items ++ decimal number }
    ensures len { vec_len to.new ≤ vec_len to.old + 20 }
    ensures room { vec_capacity to.old ≤ vec_capacity to.new }
{
    let mut buffer = Buffer::new();
    add(to, buffer.format(number).as_bytes());
}

/// What is due where the record was written: a line with the number of its messages, and a further
/// number behind these words. Room for the line was taken before, so that no memory is wanted then.
pub(crate) fn due_kept<'a>(line: Vec<u8>, messages: u32, words: &str, number: u64) -> Due<'a>
    requires empty { line.items ≡ [] }
    requires room { LINE_ROOM ≤ vec_capacity line }
    requires short { length words.now ≤ 20 }
    ensures { IsDueKept messages words.now number result.status (bytes_of_line result.line) }
{
    let mut line = line;
    add(&mut line, b"done: messages ");
    add_number(&mut line, u64::from(messages));
    add(&mut line, words.as_bytes());
    add_number(&mut line, number);
    add(&mut line, b"\n");
    Due {
        status: Status::Done,
        line: Line::Made(Bytes::from_vec(line)),
    }
}

// The name of a file, by what it is to the command.
fn name_of<'a>(input: &'a str, output: &'a str, file: File) -> &'a str
    ensures { result.now ≡ file_name input.now output.now file }
{
    match file {
        File::Input => input,
        File::Output => output,
    }
}

/// What is due where it was not.
pub(crate) fn due_unkept<'a>(
    alloc: Global,
    input: &'a str,
    output: &'a str,
    error: ToolError,
) -> Due<'a>
    ensures { IsDueUnkept input.now output.now error result.status (bytes_of_line result.line) }
{
    match error {
        ToolError::Load(fault) => due_after_failed_setup(
            alloc,
            refused(alloc, input, Fault::Record(fault)),
        ),
        ToolError::Store(file) => store_failed(name_of(input, output, file)),
        ToolError::Memory => out_of_memory(),
    }
}
