// Texts in quotes.
ghost use Rattle.std.specs.Prelude.{◌≡◌, ◌++◌, List, ℕ, OnOk, OnErr};
ghost use Rattle.cy_msg.specs.Quoted.{escaped, octal, quoted};

use std::alloc::AllocError;

/// Adds some bytes in quotes to `to`, escaped as in the text form of the Protocol Buffers. Bytes
/// from 128 on stand as they are where `is_text` says that the bytes are a text in UTF-8. Its only
/// error is want of memory, which leaves `to` as it was.
pub fn push_quoted(to: &mut Vec<u8>, bytes: &[u8], is_text: bool) -> Result<(), AllocError>
    ensures ok { OnOk result (to.new.items ≡ to.old.items ++ quoted is_text bytes.now) }
    ensures err { OnErr result (to.new.items ≡ to.old.items) }
{
    let start = to.len();
    let pushed = push_in_quotes(to, bytes, is_text);
    if pushed.is_err() {
        to.truncate(start);
    }
    pushed
}

// The same, but that an error may leave some of the quoted bytes.
#[tactic(auto, unfolding(crate::specs::Quoted::quoted))]
fn push_in_quotes(to: &mut Vec<u8>, bytes: &[u8], is_text: bool) -> Result<(), AllocError>
    ensures ok { OnOk result (to.new.items ≡ to.old.items ++ quoted is_text bytes.now) }
    ensures err { OnErr result ((part : List ℕ) × (to.new.items ≡ to.old.items ++ part)) }
{
    to.push(b'"')?;
    for byte in bytes {
        push_escaped(to, *byte, is_text)?;
    }
    to.push(b'"')?;
    Ok(())
}

// Adds a byte as it stands in quotes.
#[tactic(auto, unfolding(crate::specs::Quoted::escaped))]
fn push_escaped(to: &mut Vec<u8>, byte: u8, is_text: bool) -> Result<(), AllocError>
    ensures ok { OnOk result (to.new.items ≡ to.old.items ++ escaped is_text byte) }
    ensures err { OnErr result (to.new.items ≡ to.old.items) }
{
    match byte {
        b'"' | b'\\' => to.extend_from_slice(&[b'\\', byte]),
        b'\n' => to.extend_from_slice(b"\\n"),
        b'\t' => to.extend_from_slice(b"\\t"),
        b'\r' => to.extend_from_slice(b"\\r"),
        0..32 | 127 => push_octal(to, byte),
        32..127 => to.extend_from_slice(&[byte]),
        128..=255 if is_text => to.extend_from_slice(&[byte]),
        128..=255 => push_octal(to, byte),
    }
}

// Adds a byte as a backslash and three octal digits.
fn push_octal(to: &mut Vec<u8>, byte: u8) -> Result<(), AllocError>
    ensures ok { OnOk result (to.new.items ≡ to.old.items ++ octal byte) }
    ensures err { OnErr result (to.new.items ≡ to.old.items) }
{
    to.extend_from_slice(&[
        b'\\',
        b'0' + byte / 64,
        b'0' + byte / 8 % 8,
        b'0' + byte % 8,
    ])
}
