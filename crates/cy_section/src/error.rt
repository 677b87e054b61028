// What reading and writing a section may answer.
ghost use Rattle.std.specs.Prelude.{◌≡◌, ◌++◌, OnOk, codes};
ghost use Rattle.std.specs.Fmt.{decimal, signed_decimal};
ghost use Rattle.cy_section.specs.FaultText.{is_section_limit, place_text, section_text};
ghost use Rattle.cy_section.specs.declared.error.SectionError.TheVariants as section_error;
ghost use Rattle.cy_section.specs.Reading.{fault_of};

use cy_msg::{push_decimal, push_number, push_signed};
use cy_wire::WireError;
use std::alloc::{AllocError, AllocFailed};

/// A fault of a section, with the place of its head or of its faulty part, or want of memory.
#[derive(Clone, Copy, Debug, PartialEq, Eq)]
pub enum SectionError {
    /// The file ends inside the section.
    Cut {
        /// The place of the section's head.
        at: u64,
    },
    /// No section of a record has this type here.
    Kind {
        /// The place of the section's head.
        at: u64,
        /// The type in the head.
        value: u32,
    },
    /// The size in the head is no size of such a section.
    Size {
        /// The place of the section's head.
        at: u64,
        /// The size in the head.
        value: i64,
    },
    /// The section is longer than any that is read.
    TooLong {
        /// The place of the section's head.
        at: u64,
        /// The size in the head.
        value: u64,
    },
    /// The body is no sequence of fields in the wire form.
    Wire {
        /// The place of the first fault.
        at: u64,
    },
    /// A channel's name or its message type is not UTF-8.
    NameNotText {
        /// The place of its first byte.
        at: u64,
    },
    /// There is no memory.
    Memory,
}

// What is wrong at a place, at the end of others.
fn push_place(to: &mut Vec<u8>, at: u64, kind: &str) -> Result<(), AllocError>
    ensures { OnOk result (to.new.items ≡ to.old.items ++ place_text at kind.now) }
{
    push_number(to, "at ", at)?;
    to.extend_from_slice(b": ")?;
    to.extend_from_slice(kind.as_bytes())
}

// The same with a value behind it.
fn push_value(to: &mut Vec<u8>, at: u64, kind: &str, value: u64) -> Result<(), AllocError>
    ensures { OnOk result (to.new.items
        ≡ to.old.items ++ place_text at (kind.now ++ decimal value)) }
{
    push_place(to, at, kind)?;
    push_decimal(to, value)
}

// A wrong size at a place, at the end of others.
fn push_size(to: &mut Vec<u8>, at: u64, size: i64) -> Result<(), AllocError>
    ensures { OnOk result (to.new.items
        ≡ to.old.items ++ place_text at (codes "Size " ++ signed_decimal size)) }
{
    push_place(to, at, "Size ")?;
    push_signed(to, size)
}

impl SectionError {
    /// Adds its text to others. The only error is want of memory.
    pub fn push_to(&self, to: &mut Vec<u8>) -> Result<(), AllocError>
        ensures { OnOk result (to.new.items ≡ to.old.items ++ section_text self.now) }
    {
        match self {
            SectionError::Cut { at } => push_place(to, *at, "Cut"),
            SectionError::Kind { at, value } => push_value(to, *at, "Kind ", u64::from(*value)),
            SectionError::Size { at, value } => push_size(to, *at, *value),
            SectionError::TooLong { at, value } => push_value(to, *at, "TooLong ", *value),
            SectionError::Wire { at } => push_place(to, *at, "Wire"),
            SectionError::NameNotText { at } => push_place(to, *at, "NameNotText"),
            SectionError::Memory => to.extend_from_slice(b"out of memory"),
        }
    }

    /// Whether it is a limit that was passed.
    pub fn is_limit(&self) -> bool
        ensures { result ≡ is_section_limit self.now }
    {
        matches!(self, SectionError::TooLong { .. })
    }
}

impl From<AllocError> for SectionError {
    ghost from_gives = { λ _ e. e ≡ section_error.Memory };

    fn from(_: AllocError) -> Self {
        SectionError::Memory
    }
}

impl<T: Drop> From<AllocFailed<T>> for SectionError {
    ghost from_gives = { λ _ e. e ≡ section_error.Memory };

    fn from(_: AllocFailed<T>) -> Self {
        SectionError::Memory
    }
}

impl From<WireError> for SectionError {
    ghost from_gives = { λ fault e. e ≡ fault_of fault };

    fn from(fault: WireError) -> Self {
        match fault {
            WireError::Cut { at }
            | WireError::LongVarint { at }
            | WireError::BadTag { at }
            | WireError::Group { at } => SectionError::Wire { at },
            WireError::Memory => SectionError::Memory,
        }
    }
}
