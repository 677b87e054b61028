// Strings in quotes.
ghost use Rattle.std.specs.Prelude.{◌≡◌, ◌<◌, ◌≤◌, ◌+◌, ◌^◌, length, IfOk};
ghost use Rattle.cy_msg.specs.Answer.{AnswersFault};
ghost use Rattle.cy_text.specs.Fault.{fault_in};
ghost use Rattle.cy_text.specs.Strings.{string_at, escaped};

use crate::BadKind;
use crate::escape::{escape_at, push_escape};
use crate::fault::{Failure, Fault};
use crate::letters::rest_from;
use std::alloc::Global;

// Adds what the escape stands for whose backslash stands at `at`, before `rest`, and answers how
// many bytes of it there are.
#[tactic(auto, unfolding(crate::specs::Strings::escaped))]
fn read_escape(out: &mut Vec<u8>, at: u32, rest: &[u8]) -> Result<usize, Failure>
    ensures value { AnswersFault fault_in (λ len. (out.new.items, len)) result
        (escaped out.old.items at rest.now) }
    ensures there { IfOk result (λ len. len ≤ length rest.now) }
{
    let Some((escape, len)) = escape_at(rest) else {
        return Err(Failure::Fault(Fault::Bad(BadKind::Escape, at)));
    };
    push_escape(out, escape)?;
    Ok(len)
}

/// The bytes of the string that begins at `start`, which these are the text's bytes from, and the
/// place behind it.
pub(crate) fn string_at(alloc: Global, start: u32, bytes: &[u8]) -> Result<(Vec<u8>, u32), Failure>
    requires some { 0 < length bytes.now }
    requires within { start + length bytes.now < 2 ^ 32 }
    ensures value { AnswersFault fault_in (λ found. (found.0.items, found.1)) result
        (string_at start bytes.now) }
    ensures behind { IfOk result (λ found. start < found.1) }
    ensures there { IfOk result (λ found. found.1 ≤ start + length bytes.now) }
{
    let quote = bytes[0];
    let mut out = Vec::new(alloc);
    let mut place = 1;
    while place < bytes.len() {
        let byte = bytes[place];
        if byte == quote {
            return Ok((out, start + place as u32 + 1));
        }
        if byte == b'\n' {
            return Err(Failure::Fault(Fault::Bad(BadKind::Quote, start)));
        }
        if byte == b'\\' {
            let rest = rest_from(bytes, place + 1);
            let len = read_escape(&mut out, start + place as u32, rest)?;
            place += 1 + len;
        } else {
            out.push(byte)?;
            place += 1;
        }
    }
    Err(Failure::Fault(Fault::Bad(BadKind::Quote, start)))
}
