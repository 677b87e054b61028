// The fields of a message, one by one.
ghost use Rattle.std.specs.Prelude.{◌+◌, ◌<◌, ◌^◌, length};
ghost use Rattle.cy_wire.specs.Value.{end_of};

/// The value of a field.
#[derive(Clone, Copy, Debug, PartialEq, Eq)]
pub enum FieldValue<'a> {
    /// A number of up to 64 bits.
    Varint(u64),
    /// Eight bytes, as a number.
    Eight(u64),
    /// A text, bytes, an embedded message or packed numbers.
    Bytes {
        /// The place of the first byte.
        start: u64,
        /// The bytes.
        bytes: &'a [u8],
    },
    /// Four bytes, as a number.
    Four(u32),
}

/// A field of a message.
#[derive(Clone, Copy, Debug, PartialEq, Eq)]
pub struct Field<'a> {
    /// The field's number, at least 1.
    pub number: u32,
    /// The place of its tag.
    pub at: u64,
    pub value: FieldValue<'a>,
    ghost fits: { end_of value < 2 ^ 64 },
}

/// Bytes, and the place of the first.
#[derive(Clone, Copy, Debug, PartialEq, Eq)]
pub struct Span<'a> {
    pub start: u64,
    pub bytes: &'a [u8],
    ghost fits: { start + length bytes.now < 2 ^ 64 },
}

impl<'a> Field<'a> {
    ghost use Rattle.std.specs.Prelude.{◌≡◌};
    ghost use Rattle.std.specs.Option.{option_map};
    ghost use Rattle.cy_wire.specs.Field.{seen};
    ghost use Rattle.cy_wire.specs.Message.{number_in, span_in, seen_span};

    /// The number of a field with this field number; none where it has another one, or holds no
    /// varint. Of a message's fields the last such number counts, and all else is skipped.
    #[tactic(auto, unfolding(crate::specs::Message::number_in))]
    pub fn varint(&self, number: u32) -> Option<u64>
        ensures { result ≡ number_in number (seen self.now) }
    {
        match self.value {
            FieldValue::Varint(value) if self.number == number => Some(value),
            _ => None,
        }
    }

    /// The bytes of a field with this field number; none where it has another one, or holds no
    /// bytes.
    #[tactic(auto, unfolding(crate::specs::Message::span_in))]
    pub fn span(&self, number: u32) -> Option<Span<'a>>
        ensures { option_map seen_span result ≡ span_in number (seen self.now) }
    {
        match self.value {
            FieldValue::Bytes { start, bytes } if self.number == number => {
                Some(Span { start, bytes })
            }
            _ => None,
        }
    }
}
