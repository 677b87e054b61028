// Reads a text.
ghost use Rattle.std.specs.Prelude.{◌≡◌, ◌≤◌, ◌<◌, ◌^◌, ◌+◌, length};
ghost use Rattle.cy_text.specs.Form.{read_text};
ghost use Rattle.cy_msg.specs.Answer.{AnswersFault, AnswersOr};
ghost use Rattle.cy_text.specs.Fault.{fault_in};
ghost use Rattle.cy_text.specs.FirstFault.{IsParsed};
ghost use Rattle.cy_text.specs.Places.{line_of, column_of, error_of, fields_of_text};
ghost use Rattle.cy_text.specs.declared.error.TextError.TheVariants as text_error;

use crate::building::Reading;
use crate::fault::{Failure, Fault};
use crate::gap::gap_len;
use crate::letters::rest_from;
use crate::token::token_at;
use crate::{TextError, Tree};
use std::alloc::Global;

// The fields of a text, or its first fault, in one pass with one token in hand.
fn read_text(alloc: Global, text: &[u8]) -> Result<Tree, Failure>
    requires { length text.now + 1 < 2 ^ 32 }
    ensures { AnswersFault fault_in (λ tree. tree) result (read_text text.now) }
{
    let mut reading = Reading::new(alloc);
    let mut place = gap_len(text);
    while place < text.len() {
        let lexeme = token_at(alloc, place as u32, rest_from(text, place))?;
        let end = lexeme.span.end as usize;
        reading = reading.after_token(alloc, lexeme)?;
        place = end + gap_len(rest_from(text, end));
    }
    reading.finish(alloc, place as u32)
}

// The line and the column of the byte at a place, or of the end of the text.
#[tactic(auto, using(crate::proofs::Columns::next_column, crate::proofs::Columns::last_column))]
fn line_and_column(text: &[u8], at: u32) -> (u32, u32)
    requires { length text.now + 1 < 2 ^ 32 }
    ensures line { result.0 ≡ line_of text.now at }
    ensures column { result.1 ≡ column_of text.now at }
{
    let end = text.len().min(at as usize);
    let mut line = 1;
    let mut column = 1;
    for byte in &text[..end] {
        if *byte == b'\n' {
            line += 1;
            column = 1;
        } else {
            column += 1;
        }
    }
    (line, column)
}

// A fault with its line and column.
fn error_of(text: &[u8], fault: Fault) -> TextError
    requires { length text.now + 1 < 2 ^ 32 }
    ensures { result ≡ error_of text.now fault }
{
    match fault {
        Fault::Bad(kind, at) => {
            let (line, column) = line_and_column(text, at);
            TextError::Bad { line, column, kind }
        }
        Fault::TooDeep(at) => {
            let (line, column) = line_and_column(text, at);
            TextError::TooDeep { line, column }
        }
    }
}

/// The fields that a text says, or its first fault. The text has at most 4,294,967,294 bytes.
/// `Memory` alone is free.
#[tactic(auto, using(crate::proofs::FirstFaults::parsed))]
pub fn parse(alloc: Global, bytes: &[u8]) -> Result<Tree, TextError>
    requires { length bytes.now ≤ 4294967294 }
    ensures form { IsParsed bytes.now result }
    ensures reads { AnswersOr text_error.Memory (λ tree. tree) result (fields_of_text bytes.now) }
{
    match read_text(alloc, bytes) {
        Ok(tree) => Ok(tree),
        Err(Failure::Memory) => Err(TextError::Memory),
        Err(Failure::Fault(fault)) => Err(error_of(bytes, fault)),
    }
}
