// Names in quotes.
ghost use Rattle.std.specs.Prelude.{◌≡◌, IfOk, IfErr};
ghost use Rattle.cy_trace_read.specs.LineReading.{Gives, escape_after, byte_at, unquoted, name};
ghost use Rattle.cy_msg.specs.Quoted.{quoted};
ghost use Rattle.std.specs.Str.{bytes_eq};
ghost use Rattle.std.specs.Prelude.{true};

use crate::fault::Fault;
use cy_msg::{Text, push_quoted};
use std::alloc::{AllocError, Global};
use std::str;

/// Where a byte in quotes stands.
#[derive(Clone, Copy)]
pub(crate) enum Escape {
    /// In no escape.
    Outside,
    /// Behind a backslash.
    Backslash,
    /// Behind the first of three octal digits.
    First(u8),
    /// Behind the second one.
    Second(u8, u8),
}

impl Escape {
    // Where the byte behind `byte` stands.
    #[tactic(auto, unfolding(crate::specs::LineReading::escape_after))]
    fn after(self, byte: u8) -> Escape
        ensures { result ≡ escape_after self byte }
    {
        match self {
            Escape::Outside if byte == b'\\' => Escape::Backslash,
            Escape::Backslash if byte == b'0' || byte == b'1' => Escape::First(byte),
            Escape::First(first) => Escape::Second(first, byte),
            _ => Escape::Outside,
        }
    }

    // The byte that is whole with this one.
    #[tactic(auto, unfolding(crate::specs::LineReading::byte_at))]
    fn byte(self, byte: u8) -> Option<u8>
        ensures { result ≡ byte_at self byte }
    {
        match self {
            Escape::Outside => match byte {
                b'\\' | b'"' => None,
                _ => Some(byte),
            },
            Escape::Backslash => match byte {
                b'n' => Some(b'\n'),
                b't' => Some(b'\t'),
                b'r' => Some(b'\r'),
                b'0' | b'1' => None,
                _ => Some(byte),
            },
            Escape::First(_) => None,
            Escape::Second(first, second) => { Some(first % 2 * 64 + second % 8 * 8 + byte % 8) }
        }
    }
}

// What quotes are around, if the bytes are a name in quotes. Of other bytes it is of no account.
#[tactic(auto, unfolding(crate::specs::LineReading::unquoted))]
fn unquoted(alloc: Global, bytes: &[u8]) -> Result<Vec<u8>, AllocError>
    ensures { IfOk result (λ text. text.items ≡ unquoted bytes.now) }
{
    let mut text = Vec::new(alloc);
    let mut escape = Escape::Outside;
    for byte in bytes {
        if let Some(whole) = escape.byte(*byte) {
            text.push(whole)?;
        }
        escape = escape.after(*byte);
    }
    Ok(text)
}

// Whether the bytes are just this text in quotes, as a trace has names.
fn is_quoted(alloc: Global, bytes: &[u8], text: &[u8]) -> Result<bool, AllocError>
    ensures { IfOk result (λ same. same ≡ bytes_eq bytes.now (quoted true text.now)) }
{
    let mut again = Vec::new(alloc);
    push_quoted(&mut again, text, true)?;
    Ok(bytes == again.as_slice())
}

// The name that some bytes are in quotes, of which this stands between the quotes.
#[tactic(auto, using(crate::proofs::ReadingSteps::name_is, crate::proofs::ReadingSteps::name_other, crate::proofs::ReadingSteps::name_no_text))]
fn name_in(alloc: Global, bytes: &[u8], text: &[u8]) -> Result<Text, Fault>
    requires { text.now ≡ unquoted bytes.now }
    ensures { Gives result (name bytes.now) }
{
    let is_same = is_quoted(alloc, bytes, text)?;
    let Ok(text) = str::from_utf8(text) else {
        return Err(Fault::Bad);
    };
    if is_same {
        Ok(Text::new(alloc, text)?)
    } else {
        Err(Fault::Bad)
    }
}

/// The name that the bytes are in quotes, as a trace has names.
pub(crate) fn name(alloc: Global, bytes: &[u8]) -> Result<Text, Fault>
    ensures { Gives result (name bytes.now) }
{
    let text = unquoted(alloc, bytes)?;
    let name = name_in(alloc, bytes, &text);
    drop(text);
    name
}
