// What may stand next in a text.
use crate::Tree;
use crate::token::Bracket;
use cy_msg::{Bytes, Text};

/// Where a value stands.
#[derive(Clone, Copy)]
pub(crate) enum Place {
    /// Behind a field's name.
    Field,
    /// In a list behind a name with a colon.
    Item,
    /// In a list behind a name without one: it holds messages alone.
    MessageItem,
}

/// A value that is to come.
#[derive(Drop)]
pub(crate) struct Slot {
    /// The name of its field.
    pub(crate) name: Text,
    /// Where its entry begins.
    pub(crate) start: u32,
    pub(crate) place: Place,
}

/// What may stand next.
#[derive(Drop)]
pub(crate) enum Expected {
    /// A field's name, or the end of the message; a `,` or a `;` as well where it says so.
    Field(bool),
    /// Behind a name: a colon, a message or a list of messages.
    AfterName(Slot),
    /// Behind a colon: a value or a list.
    AfterColon(Slot),
    /// Behind the bracket of a list: an item, or its end.
    FirstItem(Slot),
    /// Behind a comma in a list: an item.
    Item(Slot),
    /// Behind an item: a comma, or the list's end.
    AfterItem(Slot),
    /// Behind a `-`: a number or a word.
    Signed(Slot),
    /// Behind a string, with its bytes and its end: another string, or what may follow the value.
    Strings(Slot, Bytes, u32),
}

/// A message that is open.
#[derive(Drop)]
pub(crate) struct Frame {
    /// The fields before it.
    pub(crate) fields: Tree,
    /// Its name and its place.
    pub(crate) slot: Slot,
    /// The bracket that it began with.
    pub(crate) bracket: Bracket,
}
