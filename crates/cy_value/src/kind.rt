// The kinds of fields that have a number.
ghost use Rattle.std.specs.Prelude.{◌≡◌, ◌%◌, ◌^◌, ◌<◌};
ghost use Rattle.std.specs.Int.{w32, cast_signed};
ghost use Rattle.cy_value.specs.Scalar.{bits_in, eight_value, four_value, held, number_of};
ghost use Rattle.cy_wire.specs.Field.{seen_value};
ghost use Rattle.cy_wire.specs.Message.{varint_value};

use crate::point::{binary32, binary64, point_number};
use cy_wire::{FieldValue, zigzag_value};

/// The kind of a field that has a number, by the names of the Protocol Buffers.
#[derive(Clone, Copy, Debug, PartialEq, Eq)]
pub enum ScalarKind {
    /// A varint, of which the low 32 bits are a signed number.
    Int32,
    /// A varint, whose 64 bits are a signed number.
    Int64,
    /// A varint, of which the low 32 bits count.
    Uint32,
    /// A varint.
    Uint64,
    /// A varint, of which the low 32 bits are a signed number in zigzag.
    Sint32,
    /// A varint, which is a signed number in zigzag.
    Sint64,
    /// Four bytes.
    Fixed32,
    /// Eight bytes.
    Fixed64,
    /// Four bytes, which are a signed number.
    Sfixed32,
    /// Eight bytes, which are a signed number.
    Sfixed64,
    /// A varint: 0 for what is false.
    Bool,
    /// A varint, of which the low 32 bits are a signed number.
    Enum,
    /// Four bytes, which are a number with a point.
    Float,
    /// Eight bytes, which are a number with a point.
    Double,
}

// The bits of a varint, of four bytes and of eight bytes.
fn varint_of(value: FieldValue<'_>) -> Option<u64>
    ensures { result ≡ varint_value (seen_value value.entry) }
{
    match value {
        FieldValue::Varint(bits) => Some(bits),
        _ => None,
    }
}

fn four_of(value: FieldValue<'_>) -> Option<u64>
    ensures { result ≡ four_value (seen_value value.entry) }
{
    match value {
        FieldValue::Four(bits) => Some(u64::from(bits)),
        _ => None,
    }
}

fn eight_of(value: FieldValue<'_>) -> Option<u64>
    ensures { result ≡ eight_value (seen_value value.entry) }
{
    match value {
        FieldValue::Eight(bits) => Some(bits),
        _ => None,
    }
}

// The low 32 bits, and the signed number that they are.
fn low_32(bits: u64) -> u64
    ensures { result ≡ bits % 2 ^ 32 }
{
    bits % (1 << 32)
}

fn signed_32(bits: u64) -> i64
    ensures { result ≡ cast_signed w32 (bits % 2 ^ 32) }
{
    i64::from((low_32(bits) as u32).cast_signed())
}

// A number, held within 64 signed bits.
fn held(bits: u64) -> i64
    ensures { result ≡ held bits }
{
    bits.min(i64::MAX as u64) as i64
}

impl ScalarKind {
    // The bits in a field of this kind; none where it is written in another way.
    #[tactic(auto, unfolding(crate::specs::Scalar::bits_in))]
    pub(crate) fn bits_in(self, value: FieldValue<'_>) -> Option<u64>
        ensures { result ≡ bits_in self (seen_value value.entry) }
    {
        match self {
            ScalarKind::Fixed32 | ScalarKind::Sfixed32 | ScalarKind::Float => four_of(value),
            ScalarKind::Fixed64 | ScalarKind::Sfixed64 | ScalarKind::Double => eight_of(value),
            _ => varint_of(value),
        }
    }

    // The number that the bits of a field of this kind stand for.
    #[tactic(auto, unfolding(crate::specs::Scalar::number_of))]
    pub(crate) fn number_of(self, scale: u64, bits: u64) -> Option<i64>
        ensures { result ≡ number_of self scale bits }
    {
        match self {
            ScalarKind::Int32 | ScalarKind::Sfixed32 | ScalarKind::Enum => Some(signed_32(bits)),
            ScalarKind::Int64 | ScalarKind::Sfixed64 => Some(bits.cast_signed()),
            ScalarKind::Uint32 | ScalarKind::Fixed32 => Some(low_32(bits) as i64),
            ScalarKind::Uint64 | ScalarKind::Fixed64 => Some(held(bits)),
            ScalarKind::Sint32 => Some(zigzag_value(low_32(bits))),
            ScalarKind::Sint64 => Some(zigzag_value(bits)),
            ScalarKind::Bool => Some(i64::from(bits != 0)),
            ScalarKind::Float => point_number(binary32(), scale, bits),
            ScalarKind::Double => point_number(binary64(), scale, bits),
        }
    }
}
