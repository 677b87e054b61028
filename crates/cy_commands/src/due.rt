// What is due.
ghost use Rattle.std.specs.Prelude.{◌≡◌};
ghost use Rattle.cy_commands.specs.Line.{bytes_of_line};
ghost use Rattle.cy_commands.specs.Lines.{memory_line, store_line};

use crate::fault_text::{MEMORY_LINE, STORE_FAILED};
use crate::line::Line;
use crate::status::Status;

/// A status that is due, and the line that tells it.
#[derive(Drop)]
pub struct Due<'a> {
    /// The status.
    pub status: Status,
    /// Its line.
    pub line: Line<'a>,
}

/// There is no memory.
pub(crate) fn out_of_memory<'a>() -> Due<'a>
    ensures status { result.status ≡ Status.Memory }
    ensures line { bytes_of_line result.line ≡ memory_line }
{
    Due {
        status: Status::Memory,
        line: Line::Fixed(MEMORY_LINE),
    }
}

/// A call of the store on a file failed.
pub fn store_failed(name: &str) -> Due<'_>
    ensures status { result.status ≡ Status.StoreFault }
    ensures line { bytes_of_line result.line ≡ store_line name.now }
{
    Due {
        status: Status::StoreFault,
        line: Line::Named(name, STORE_FAILED),
    }
}
