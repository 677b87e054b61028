// Reads the field at the front of bytes.
ghost use Rattle.std.specs.Prelude.{◌≡◌, ◌≢◌, ◌+◌, ◌<◌, ◌^◌, length, IfOk, IfErr};
ghost use Rattle.cy_wire.specs.Value.{Answers, IsInside, TakesSome};
ghost use Rattle.cy_wire.specs.Field.{wire_type, value_at, field_at, bytes_at};
ghost use Rattle.cy_wire.specs.Field.{seen, seen_value};

use crate::varint::varint_at;
use crate::{Field, FieldValue, WireError};
use byteorder::{ByteOrder, LittleEndian};

// The wire type in a tag.
fn type_of(tag: u64, at: u64) -> Result<u64, WireError>
    ensures kind { result ≡ wire_type at tag }
    ensures not_memory { IfErr result (λ e. e ≢ WireError.Memory) }
{
    if tag > u64::from(u32::MAX) || tag < 8 {
        return Err(WireError::BadTag { at });
    }
    match tag % 8 {
        kind @ (0 | 1 | 2 | 5) => Ok(kind),
        3 | 4 => Err(WireError::Group { at }),
        _ => Err(WireError::BadTag { at }),
    }
}

// A length and that many bytes, and how many bytes both take.
#[tactic(auto, unfolding(crate::specs::Field::bytes_at))]
#[inline(always)]
fn block_at<'a>(bytes: &'a [u8], at: u64) -> Result<(FieldValue<'a>, usize), WireError>
    requires { at + length bytes.now < 2 ^ 64 }
    ensures value { Answers (λ x. (seen_value x.0, x.1)) result (bytes_at at bytes.now) }
    ensures inside { IfOk result (λ x. IsInside x.0 x.1 bytes.now) }
    ensures not_memory { IfErr result (λ e. e ≢ WireError.Memory) }
{
    let (size, taken) = varint_at(bytes, at)?;
    let start = at + taken as u64;
    let rest = &bytes[taken..];
    if size > rest.len() as u64 {
        return Err(WireError::Cut { at: start });
    }
    let bytes = &rest[..size as usize];
    Ok((FieldValue::Bytes { start, bytes }, taken + bytes.len()))
}

// The value at the front of bytes, and how many bytes it takes.
#[tactic(auto, unfolding(crate::specs::Field::value_at, crate::specs::Field::number_at))]
#[inline(always)]
fn value_of<'a>(kind: u64, bytes: &'a [u8], at: u64) -> Result<(FieldValue<'a>, usize), WireError>
    requires { at + length bytes.now < 2 ^ 64 }
    ensures value { Answers (λ x. (seen_value x.0, x.1)) result (value_at kind at bytes.now) }
    ensures inside { IfOk result (λ x. IsInside x.0 x.1 bytes.now) }
    ensures not_memory { IfErr result (λ e. e ≢ WireError.Memory) }
{
    match kind {
        0 => {
            let (value, taken) = varint_at(bytes, at)?;
            Ok((FieldValue::Varint(value), taken))
        }
        1 if bytes.len() < 8 => Err(WireError::Cut { at }),
        1 => Ok((FieldValue::Eight(LittleEndian::read_u64(bytes)), 8)),
        2 => block_at(bytes, at),
        _ if bytes.len() < 4 => Err(WireError::Cut { at }),
        _ => Ok((FieldValue::Four(LittleEndian::read_u32(bytes)), 4)),
    }
}

// The field at the front of bytes that stand at a place, and how many bytes it takes.
#[tactic(auto, unfolding(crate::specs::Field::field_at))]
#[inline(always)]
pub(crate) fn field_of<'a>(bytes: &'a [u8], at: u64) -> Result<(Field<'a>, usize), WireError>
    requires { at + length bytes.now < 2 ^ 64 }
    ensures field { Answers (λ x. (seen x.0, x.1)) result (field_at at bytes.now) }
    ensures taken { IfOk result (λ x. TakesSome x.1 bytes.now) }
    ensures not_memory { IfErr result (λ e. e ≢ WireError.Memory) }
{
    let (tag, tag_size) = varint_at(bytes, at)?;
    let kind = type_of(tag, at)?;
    let (value, value_size) = value_of(kind, &bytes[tag_size..], at + tag_size as u64)?;
    let number = (tag / 8) as u32;
    Ok((Field { number, at, value }, tag_size + value_size))
}
