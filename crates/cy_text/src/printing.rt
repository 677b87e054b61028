// Prints fields.
ghost use Rattle.std.specs.Prelude.{◌≡◌, ◌++◌, codes, decimal, IfOk, IsOkUnless, OnOk};
ghost use Rattle.std.specs.Str.{is_utf8};
ghost use Rattle.cy_text.specs.Entries.{held_of};
ghost use Rattle.cy_text.specs.Printed.{fields_text, held_text, printed, sign_text};
ghost use Rattle.cy_text.specs.declared.error.TextError.TheVariants as text_error;

use crate::{Entry, TextError, Tree, Value};
use cy_msg::{Bytes, push_quoted};
use std::alloc::{AllocError, Global};
use std::str;

// Whether bytes are a text in UTF-8.
#[tactic(auto, using(crate::proofs::Utf8::is_a_text, crate::proofs::Utf8::is_no_text))]
fn is_text(bytes: &[u8]) -> bool
    ensures { result ≡ is_utf8 bytes.now }
{
    match str::from_utf8(bytes) {
        Ok(_) => true,
        Err(_) => false,
    }
}

// Adds a `-` where there is one.
fn push_sign(out: &mut Vec<u8>, negative: bool) -> Result<(), AllocError>
    ensures { OnOk result (out.new.items ≡ out.old.items ++ sign_text negative) }
{
    if negative {
        out.extend_from_slice(b"-")
    } else {
        Ok(())
    }
}

// Adds a whole number.
fn push_whole(out: &mut Vec<u8>, alloc: Global, negative: bool, size: u64) -> Result<(), AllocError>
    ensures { OnOk result (out.new.items ≡ out.old.items ++ (codes ": " ++ sign_text negative
        ++ decimal size)) }
{
    let digits = format!(in alloc; "{size}")?;
    out.extend_from_slice(b": ")?;
    push_sign(out, negative)?;
    out.extend_from_slice(digits.as_bytes())
}

// Adds the fields, each on a line behind the margin.
#[cycle(print)]
fn push_fields(
    out: &mut Vec<u8>,
    alloc: Global,
    margin: &mut Vec<u8>,
    tree: &Tree,
) -> Result<(), AllocError>
    ensures text { OnOk result (out.new.items ≡ out.old.items
        ++ fields_text margin.old.items tree.now) }
    ensures margin { OnOk result (margin.new.items ≡ margin.old.items) }
{
    for entry in &tree.entries {
        out.extend_from_slice(margin.as_slice())?;
        out.extend_from_slice(entry.name.as_str().as_bytes())?;
        push_value(out, alloc, margin, &entry.value)?;
        out.extend_from_slice(b"\n")?;
    }
    Ok(())
}

// Adds what stands behind a name.
#[cycle(print)]
fn push_value(
    out: &mut Vec<u8>,
    alloc: Global,
    margin: &mut Vec<u8>,
    value: &Value,
) -> Result<(), AllocError>
    ensures text { OnOk result (out.new.items ≡ out.old.items ++ held_text margin.old.items
        (held_of value.now)) }
    ensures margin { OnOk result (margin.new.items ≡ margin.old.items) }
{
    match value {
        Value::Whole { negative, size } => push_whole(out, alloc, *negative, *size),
        Value::Literal(text) => {
            out.extend_from_slice(b": ")?;
            out.extend_from_slice(text.as_str().as_bytes())
        }
        Value::Word { negative, text } => {
            out.extend_from_slice(b": ")?;
            push_sign(out, *negative)?;
            out.extend_from_slice(text.as_str().as_bytes())
        }
        Value::Quote(bytes) => {
            out.extend_from_slice(b": ")?;
            push_quoted(out, bytes.as_slice(), is_text(bytes.as_slice()))
        }
        Value::Message(fields) => {
            out.extend_from_slice(b" {\n")?;
            let outer = margin.len();
            margin.extend_from_slice(b"  ")?;
            push_fields(out, alloc, margin, fields)?;
            margin.truncate(outer);
            out.extend_from_slice(margin.as_slice())?;
            out.extend_from_slice(b"}")
        }
    }
}

/// The printed form of fields. Its only error is want of memory. It calls itself as deep as
/// messages stand in one another: in a tree that `parse` gave at most 64 times, and in any other as
/// deep as its maker made it.
pub fn print(alloc: Global, tree: &Tree) -> Result<Bytes, TextError>
    ensures text { IfOk result (λ bytes. bytes ≡ printed tree.now) }
    ensures only_memory { IsOkUnless result text_error.Memory }
{
    let mut out = Vec::new(alloc);
    let mut margin = Vec::new(alloc);
    push_fields(&mut out, alloc, &mut margin, tree)?;
    Ok(Bytes::from_vec(out))
}
