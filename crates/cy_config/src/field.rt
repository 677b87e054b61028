// What a format says of its messages: which fields they may hold, and of which kind.
ghost use Rattle.std.specs.Prelude.{◌≡◌, List, ℕ, Option, option_map};
ghost use Rattle.cy_text.specs.Entries.{held_of};
ghost use Rattle.cy_config.specs.Kinds.{inside_of, is_of_kind};
ghost use Rattle.cy_config.specs.Tables.{i32_kind, repeated, single, u32_kind};
ghost use Rattle.cy_config.specs.declared.field.Field as field;

use cy_text::{Tree, Value};

/// What a field may hold. The messages of a format are told apart by an `M`.
#[derive(Clone, Copy)]
pub enum Kind<M> {
    /// A message with known fields.
    Message(M),
    /// A message that isn't looked into.
    AnyMessage,
    /// A text in UTF-8.
    Text,
    /// A whole number in a range.
    Whole {
        /// The least that it may be.
        least: i64,
        /// The most that it may be.
        most: i64,
    },
    /// Any value.
    Anything,
}

/// A field that a message may hold.
#[derive(Clone, Copy)]
pub struct Field<M> {
    /// Whether it may stand more than once. Of another field that does, the last one counts.
    pub repeated: bool,
    /// What it may hold.
    pub kind: Kind<M>,
}

/// The messages of a format, each with the fields that it may hold.
pub trait Described: Copy {
    /// The field of a name, where the message may hold one.
    ghost field: { Self → List ℕ → Option (field.Field Self) };

    /// The field of a name, where the message may hold one.
    fn field(self, name: &str) -> Option<Field<Self>>
        ensures { result ≡ field self name.now };
}

// A message with known fields: which message it is, and what stands in it.
#[derive(Drop)]
pub(crate) struct Inside<'a, M> {
    pub(crate) message: M,
    pub(crate) fields: &'a Tree,
}

impl<M: Copy> Field<M> {
    /// A field that counts once.
    pub fn single(kind: Kind<M>) -> Self
        ensures { result ≡ single kind }
    {
        Field {
            repeated: false,
            kind,
        }
    }

    /// A field that may stand any number of times.
    pub fn repeated(kind: Kind<M>) -> Self
        ensures { result ≡ repeated kind }
    {
        Field {
            repeated: true,
            kind,
        }
    }
}

impl<M: Copy> Kind<M> {
    /// A whole number that a `u32` holds.
    pub fn u32() -> Self
        ensures { result ≡ u32_kind }
    {
        Kind::Whole {
            least: 0,
            most: 4_294_967_295,
        }
    }

    /// A whole number that an `i32` holds.
    pub fn i32() -> Self
        ensures { result ≡ i32_kind }
    {
        Kind::Whole {
            least: -2_147_483_648,
            most: 2_147_483_647,
        }
    }

    // The message to be looked into, where a value of this kind is one, and the fields that it has.
    pub(crate) fn inside<'a>(&self, value: &'a Value) -> Option<Inside<'a, M>>
        ensures { option_map (λ inside. (inside.message, inside.fields.now)) result
            ≡ inside_of self.now (held_of value.now) }
    {
        match (self, value) {
            (Kind::Message(message), Value::Message(fields)) => Some(Inside {
                message: *message,
                fields,
            }),
            _ => None,
        }
    }

    // Whether a value is of this kind. A message with known fields is not looked into.
    pub(crate) fn takes(&self, value: &Value) -> bool
        ensures { result ≡ is_of_kind self.now (held_of value.now) }
    {
        match self {
            Kind::Message(_) | Kind::AnyMessage => matches!(value, Value::Message(_)),
            Kind::Text => value.text().is_some(),
            Kind::Whole { least, most } => match value.whole() {
                Some(whole) => i128::from(*least) <= whole && whole <= i128::from(*most),
                None => false,
            },
            Kind::Anything => true,
        }
    }
}
