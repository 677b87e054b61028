// Escapes in strings.
ghost use Rattle.std.specs.Prelude.{◌≡◌, ◌<◌, ◌≤◌, ◌++◌, length, IfSome, OnOk, ◌+◌};
ghost use Rattle.cy_text.specs.Strings.{simple_escape, octal_escape, hex_escape, char_escape};
ghost use Rattle.cy_text.specs.Strings.{escape_at, escape_bytes};

use crate::letters::{hex_len, octal_len};
use crate::number::value_of;
use std::alloc::AllocError;

/// What an escape stands for.
#[derive(Clone, Copy)]
pub(crate) enum Escape {
    Byte(u8),
    Char(char),
}

// The byte that a letter or a mark behind a backslash stands for.
#[tactic(auto, unfolding(crate::specs::Strings::simple_escape))]
fn simple_escape(byte: u8) -> Option<u8>
    ensures { result ≡ simple_escape byte }
{
    match byte {
        b'a' => Some(7),
        b'b' => Some(8),
        b'f' => Some(12),
        b'n' => Some(b'\n'),
        b'r' => Some(b'\r'),
        b't' => Some(b'\t'),
        b'v' => Some(11),
        b'?' | b'\\' | b'\'' | b'"' => Some(byte),
        _ => None,
    }
}

// One to three octal digits, of value at most 255.
#[tactic(auto, unfolding(crate::specs::Strings::octal_escape))]
fn octal_escape(bytes: &[u8]) -> Option<(Escape, usize)>
    ensures value { result ≡ octal_escape bytes.now }
    ensures there { IfSome result (λ found. found.1 ≤ length bytes.now) }
{
    let most = bytes.len().min(3);
    let count = octal_len(&bytes[..most]);
    let value = value_of(8, &bytes[..count])?;
    if value < 256 {
        Some((Escape::Byte(value as u8), count))
    } else {
        None
    }
}

// One or two hexadecimal digits behind an `x`.
#[tactic(auto, unfolding(crate::specs::Strings::hex_escape))]
fn hex_escape(bytes: &[u8]) -> Option<(Escape, usize)>
    ensures value { result ≡ hex_escape bytes.now }
    ensures there { IfSome result (λ found. found.1 ≤ length bytes.now + 1) }
{
    let most = bytes.len().min(2);
    let count = hex_len(&bytes[..most]);
    if count == 0 {
        return None;
    }
    let value = value_of(16, &bytes[..count])?;
    if value < 256 {
        Some((Escape::Byte(value as u8), 1 + count))
    } else {
        None
    }
}

// So many hexadecimal digits behind a `u`, which stand for a character.
#[tactic(auto, unfolding(crate::specs::Strings::char_escape))]
fn char_escape(count: usize, bytes: &[u8]) -> Option<(Escape, usize)>
    requires { count ≤ 8 }
    ensures value { result ≡ char_escape count bytes.now }
    ensures there { IfSome result (λ found. found.1 ≤ length bytes.now + 1) }
{
    let most = bytes.len().min(count);
    let digits = &bytes[..most];
    if hex_len(digits) != count {
        return None;
    }
    let value = value_of(16, digits)?;
    if value > 0x10FFFF {
        return None;
    }
    let found = char::from_u32(value as u32)?;
    Some((Escape::Char(found), 1 + count))
}

/// The escape whose backslash stands before these bytes, and how many of them it takes.
#[tactic(auto, unfolding(crate::specs::Strings::escape_at))]
pub(crate) fn escape_at(bytes: &[u8]) -> Option<(Escape, usize)>
    ensures value { result ≡ escape_at bytes.now }
    ensures there { IfSome result (λ found. found.1 ≤ length bytes.now) }
{
    match bytes {
        [b'0'..=b'7', ..] => octal_escape(bytes),
        [b'x', rest @ ..] => hex_escape(rest),
        [b'u', rest @ ..] => char_escape(4, rest),
        [b'U', rest @ ..] => char_escape(8, rest),
        [byte, ..] => {
            let found = simple_escape(*byte)?;
            Some((Escape::Byte(found), 1))
        }
        [] => None,
    }
}

/// Adds what an escape stands for, a character as UTF-8.
pub(crate) fn push_escape(out: &mut Vec<u8>, escape: Escape) -> Result<(), AllocError>
    ensures { OnOk result (out.new.items ≡ out.old.items ++ escape_bytes escape) }
{
    match escape {
        Escape::Byte(byte) => {
            out.push(byte)?;
            Ok(())
        }
        Escape::Char(found) => {
            let mut room = [0; 4];
            let text = found.encode_utf8(&mut room);
            out.extend_from_slice(text.as_bytes())
        }
    }
}
