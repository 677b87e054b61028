// The tape of a trace.
ghost use Rattle.std.specs.Prelude.{◌≡◌, ◌<◌, [], length, slice_get, Some};
ghost use Rattle.cy_trace.specs.Tapes.{entry_of};

use crate::added::with_room;
use crate::hints::Hints;
use crate::named::{NamedSeq, TapeName};
use cy_msg::Text;
use std::alloc::Global;
use std::collections::HashMap;
use std::marker::Model;

/// The messages of a tape. Contracts see it as the list of their names and numbers.
#[derive(Drop)]
pub struct Tape {
    pub(crate) names: Vec<TapeName>,
    // The number of each of the first names, by the name in quotes. It is a guess: a line is of the
    // name only where it begins as the name's lines do.
    pub(crate) numbers: HashMap<Vec<u8>, u32>,
    // Guesses that take less time.
    pub(crate) hints: Hints,
    pub(crate) messages: Vec<NamedSeq>,
}

impl Model for Tape {
    ghost use Rattle.std.specs.Prelude.{List};
    ghost use Rattle.cy_trace.specs.declared.trace.TapeEntry.{TapeEntry};
    ghost use Rattle.cy_trace.specs.Tapes.{told_by, AreNamed};

    ghost Value = { List TapeEntry };

    ghost view = { λ t. told_by t.names.items t.messages.items };

    ghost invariant = { λ t. AreNamed t.names.items t.messages.items };
}

impl Tape {
    /// No message yet.
    pub fn new(alloc: Global) -> Self
        ensures { result ≡ [] }
    {
        Tape {
            names: Vec::new(alloc),
            numbers: HashMap::new(alloc),
            hints: Hints::none(alloc),
            messages: Vec::new(alloc),
        }
    }

    /// No message yet, with room for so many, where there is memory.
    pub fn with_room(alloc: Global, most: usize) -> Self
        ensures { result ≡ [] }
    {
        Tape {
            names: Vec::new(alloc),
            numbers: HashMap::new(alloc),
            hints: Hints::with_room(alloc),
            messages: with_room(alloc, most),
        }
    }

    /// How many messages there are.
    pub fn count(&self) -> usize
        ensures { result ≡ length self.now }
    {
        self.messages.len()
    }

    /// The message at a place, with its name.
    #[inline(always)]
    pub fn entry(&self, place: usize) -> (&Text, NamedSeq)
        requires { place < length self.now }
        ensures { slice_get self.now place ≡ Some (entry_of (result.0.now, result.1.seq)) }
    {
        let message = self.messages[place];
        (&self.names[message.name as usize].text, message)
    }
}
