// What reading and printing a text may answer in place of a value.
ghost use Rattle.std.specs.Prelude.{◌≡◌, ◌++◌, OnOk};
ghost use Rattle.cy_text.specs.FaultText.{is_text_limit, kind_text, place_text, text_text};
ghost use Rattle.cy_text.specs.declared.error.TextError.TheVariants as text_error;

use cy_msg::push_number;
use std::alloc::{AllocError, AllocFailed};

/// What is wrong with a token, or with where it stands.
#[derive(Clone, Copy, Debug, PartialEq, Eq)]
pub enum BadKind {
    /// A byte that begins no token.
    Token,
    /// A number that is outside the form or too large.
    Number,
    /// A string that isn't closed on its line.
    Quote,
    /// An escape outside the form.
    Escape,
    /// A `[` where a field's name may stand.
    Extension,
    /// A token that is no name where a field's name may stand.
    Name,
    /// A value, or an item of a list, that needs a `:` before it.
    Colon,
    /// A token that is no value where a value has to stand, or the end of the text there.
    Value,
    /// Any other token that may not stand where it does, or the end of the text where a bracket is
    /// open.
    Close,
}

impl BadKind {
    // Its name.
    fn name(self) -> &'static str
        ensures { result.now ≡ kind_text self }
    {
        match self {
            BadKind::Token => "Token",
            BadKind::Number => "Number",
            BadKind::Quote => "Quote",
            BadKind::Escape => "Escape",
            BadKind::Extension => "Extension",
            BadKind::Name => "Name",
            BadKind::Colon => "Colon",
            BadKind::Value => "Value",
            BadKind::Close => "Close",
        }
    }
}

/// The first fault of a text, with its place: the line and the column from 1, the column in bytes.
/// Or want of memory.
#[derive(Clone, Copy, Debug, PartialEq, Eq)]
pub enum TextError {
    /// The text isn't in the form.
    Bad {
        /// The line of the token, from 1.
        line: u32,
        /// Its first byte in the line, from 1.
        column: u32,
        /// What is wrong.
        kind: BadKind,
    },
    /// A message stands in too many others.
    TooDeep {
        /// The line of its bracket, from 1.
        line: u32,
        /// The bracket's byte in the line, from 1.
        column: u32,
    },
    /// There is no memory.
    Memory,
}

// A kind at its place, at the end of others.
fn push_place(to: &mut Vec<u8>, line: u32, column: u32, kind: &str) -> Result<(), AllocError>
    ensures { OnOk result (to.new.items ≡ to.old.items ++ place_text line column kind.now) }
{
    push_number(to, "line ", u64::from(line))?;
    push_number(to, " column ", u64::from(column))?;
    to.extend_from_slice(b": ")?;
    to.extend_from_slice(kind.as_bytes())
}

impl TextError {
    /// Adds its text to others. The only error is want of memory.
    pub fn push_to(&self, to: &mut Vec<u8>) -> Result<(), AllocError>
        ensures { OnOk result (to.new.items ≡ to.old.items ++ text_text self.now) }
    {
        match self {
            TextError::Bad { line, column, kind } => push_place(to, *line, *column, kind.name()),
            TextError::TooDeep { line, column } => push_place(to, *line, *column, "TooDeep"),
            TextError::Memory => to.extend_from_slice(b"out of memory"),
        }
    }

    /// Whether it is a limit that was passed.
    pub fn is_limit(&self) -> bool
        ensures { result ≡ is_text_limit self.now }
    {
        matches!(self, TextError::TooDeep { .. })
    }
}

impl From<AllocError> for TextError {
    ghost from_gives = { λ _ e. e ≡ text_error.Memory };

    fn from(_: AllocError) -> Self {
        TextError::Memory
    }
}

impl<T: Drop> From<AllocFailed<T>> for TextError {
    ghost from_gives = { λ _ e. e ≡ text_error.Memory };

    fn from(_: AllocFailed<T>) -> Self {
        TextError::Memory
    }
}
