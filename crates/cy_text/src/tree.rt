// What a text says: fields with their values, some of which are messages with fields of their own.
ghost use Rattle.std.specs.Prelude.{◌≡◌, OnOk, OnErr};
ghost use Rattle.cy_text.specs.Entries.{fields_of, held_of};
ghost use Rattle.cy_text.specs.Fields.{Nothing, And};

use cy_msg::{Bytes, Text};
use std::alloc::{AllocError, Global};
use std::marker::Model;

/// Where something stands in a text.
#[derive(Clone, Copy, Debug, PartialEq, Eq)]
pub struct Span {
    /// The place of its first byte, from 0.
    pub start: u32,
    /// The place behind its last byte.
    pub end: u32,
}

/// A field of a message.
#[derive(Drop)]
#[cycle(tree)]
pub struct Entry {
    /// Its name.
    pub name: Text,
    /// From its name to the end of its value; of an item of a list, the item.
    pub span: Span,
    /// What it holds.
    pub value: Value,
}

/// What a field holds.
#[derive(Drop)]
#[cycle(tree)]
pub enum Value {
    /// A whole number.
    Whole {
        /// Whether a `-` stands before it.
        negative: bool,
        /// It without its sign.
        size: u64,
    },
    /// A number with a point, an exponent or an `f`: its text, with its sign.
    Literal(Text),
    /// A word.
    Word {
        /// Whether a `-` stands before it.
        negative: bool,
        /// The word.
        text: Text,
    },
    /// The bytes of a string, or of strings in a row.
    Quote(Bytes),
    /// A message.
    Message(Tree),
}

/// The fields of a message, or of a whole text, in their order.
#[derive(Drop)]
#[cycle(tree)]
pub struct Tree {
    pub(crate) entries: Vec<Entry>,
}

impl Model for Tree {
    ghost use Rattle.cy_text.specs.Fields.{Fields};

    ghost Value = { Fields };

    ghost use Rattle.cy_text.specs.FieldsCode.{fields_code};

    ghost coded = { fields_code };

    ghost use Rattle.cy_text.specs.Entries.{fields_of};

    ghost view = { λ t. fields_of t.entries.items };

    ghost use Rattle.cy_text.specs.Fields.{size_of};

    ghost size = { size_of };

    ghost use Rattle.cy_text.specs.EntriesFall.{tree_falls};

    ghost size_decreases = { λ a h. tree_falls a.entries.items };
}

impl Tree {
    /// No fields.
    pub fn new(alloc: Global) -> Self
        ensures { result ≡ Nothing }
    {
        Tree {
            entries: Vec::new(alloc),
        }
    }

    /// The fields of a `Vec`, with no copy.
    pub fn from_entries(entries: Vec<Entry>) -> Self
        ensures { result ≡ fields_of entries.items }
    {
        Tree { entries }
    }

    /// The fields in their order.
    pub fn entries(&self) -> &[Entry]
        ensures { fields_of result.now ≡ self.now }
    {
        self.entries.as_slice()
    }

    /// Adds a field at the end. Its only error is want of memory, which changes nothing.
    #[tactic(auto, using(crate::proofs::Pushes::fields_of_push))]
    pub fn push(&mut self, entry: Entry) -> Result<(), AllocError>
        ensures ok { OnOk result (self.new ≡ And self.old entry.name entry.span
            (held_of entry.value)) }
        ensures err { OnErr result (self.new ≡ self.old) }
    {
        self.entries.push(entry)?;
        Ok(())
    }
}
