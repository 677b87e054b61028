// The last field of a number in a message.
ghost use Rattle.std.specs.Prelude.{◌≡◌, option_map};
ghost use Rattle.cy_value.specs.Value.{bits_under, read_last};
ghost use Rattle.cy_wire.specs.Field.{seen};
ghost use Rattle.cy_wire.specs.Message.{seen_span, span_in};
ghost use Rattle.cy_wire.specs.Value.{Answers};

use crate::ScalarKind;
use cy_wire::{Field, Reader, Span, WireError};

// The bits in a field, where it has this number and is written as this kind is.
fn bits_under(number: u32, kind: ScalarKind, field: &Field<'_>) -> Option<u64>
    ensures { result ≡ bits_under number kind (seen field.now) }
{
    if field.number == number {
        kind.bits_in(field.value)
    } else {
        None
    }
}

// The bits in the last field of this number and kind.
pub(crate) fn last_bits(
    content: &[u8],
    number: u32,
    kind: ScalarKind,
) -> Result<Option<u64>, WireError>
    ensures { result ≡ read_last (bits_under number kind) content.now }
{
    let mut reader = Reader::new(content, 0);
    let mut last = None;
    while let Some(field) = reader.next_field()? {
        last = bits_under(number, kind, &field).or(last);
    }
    Ok(last)
}

// The bytes in the last field of this number that has some.
pub(crate) fn last_span(content: &[u8], number: u32) -> Result<Option<Span<'_>>, WireError>
    ensures { Answers (λ span. option_map seen_span span) result
        (read_last (span_in number) content.entry.now) }
{
    let mut reader = Reader::new(content, 0);
    let mut last = None;
    while let Some(field) = reader.next_field()? {
        last = field.span(number).or(last);
    }
    Ok(last)
}
