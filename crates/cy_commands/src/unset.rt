// What is due where a command's files are not accepted.
ghost use Rattle.std.specs.Prelude.{◌≡◌, IfOk};
ghost use Rattle.cy_commands.specs.Line.{bytes_of_line};
ghost use Rattle.cy_commands.specs.Lines.{store_line as line_of_store};
ghost use Rattle.cy_commands.specs.Status.{fault_status};
ghost use Rattle.cy_commands.specs.private.Unset.{IsDueUnset};

use crate::due::{Due, out_of_memory};
use crate::fault_text::STORE_FAILED;
use crate::line::Line;
use crate::status::Status;
use cy_msg::Bytes;
use cy_setup::{Fault, SetupError};
use std::alloc::{AllocError, Global};

// The status of a fault.
fn fault_status(fault: &Fault) -> Status
    ensures { result ≡ fault_status fault.now }
{
    if fault.is_limit() {
        Status::Limit
    } else {
        Status::Refused
    }
}

// The line that tells at which file the store failed.
fn store_line(alloc: Global, file: &str) -> Result<Bytes, AllocError>
    ensures { IfOk result (λ line. line ≡ line_of_store file.now) }
{
    let mut line = Vec::from_slice(alloc, b"cyber: ")?;
    line.extend_from_slice(file.as_bytes())?;
    line.extend_from_slice(STORE_FAILED.as_bytes())?;
    Ok(Bytes::from_vec(line))
}

// What is due where the files are not accepted.
fn due_of<'a>(alloc: Global, error: &SetupError) -> Due<'a>
    ensures { IsDueUnset error.now result.status (bytes_of_line result.line) }
{
    match error {
        SetupError::Refused(refusal) => match refusal.line(alloc) {
            Ok(line) => Due {
                status: fault_status(&refusal.fault),
                line: Line::Made(line),
            },
            Err(_) => out_of_memory(),
        },
        SetupError::Store { file } => match store_line(alloc, file.as_str()) {
            Ok(line) => Due {
                status: Status::StoreFault,
                line: Line::Made(line),
            },
            Err(_) => out_of_memory(),
        },
        SetupError::Memory => out_of_memory(),
    }
}

/// What is due where the files are not accepted.
pub fn due_after_failed_setup<'a>(alloc: Global, error: SetupError) -> Due<'a>
    ensures { IsDueUnset error result.status (bytes_of_line result.line) }
{
    let due = due_of(alloc, &error);
    drop(error);
    due
}
