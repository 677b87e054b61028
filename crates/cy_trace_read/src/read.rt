// Reads the text of a trace.
ghost use Rattle.std.specs.Prelude.{◌≡◌, ◌≤◌, length};
ghost use Rattle.cy_trace.specs.TraceForm.{ReadsTrace};
ghost use Rattle.cy_trace_read.specs.LineOrder.{error_at};

use crate::building::Building;
use crate::fault::Fault;
use cy_trace::{Trace, TraceError, cut};
use std::alloc::Global;

// The error of a line, from 1, where reading it failed.
fn error_at(line: u32, fault: Fault) -> TraceError
    ensures { result ≡ error_at line fault }
{
    match fault {
        Fault::Bad => TraceError::Bad { line },
        Fault::Memory => TraceError::Memory,
    }
}

/// The trace whose text the bytes are, of which there are at most 4,294,967,294. `Bad` has the
/// first line, from 1, with which the lines so far are a prefix of no trace's text; a last line
/// without a newline is such a line, and where the text ends too early it is the line after the
/// last one. `Memory` alone is free.
pub fn read_trace(alloc: Global, bytes: &[u8]) -> Result<Trace, TraceError>
    requires { length bytes.now ≤ 4294967294 }
    ensures { ReadsTrace bytes.now result }
{
    let mut building = Building::Start;
    let mut rest = bytes;
    let mut line = 1;
    while !rest.is_empty() {
        let Some((text, more)) = cut(rest, b'\n') else {
            drop(building);
            return Err(TraceError::Bad { line });
        };
        let next = match building.next(alloc, text) {
            Ok(next) => next,
            Err(fault) => return Err(error_at(line, fault)),
        };
        let read = next.read_on(more, line + 1);
        building = read.building;
        rest = read.rest;
        line = read.line;
    }
    match building.finish(alloc) {
        Some(trace) => Ok(trace),
        None => Err(TraceError::Bad { line }),
    }
}
