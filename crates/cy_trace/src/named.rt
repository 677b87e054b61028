// A name of a tape, and a message by the number of its name.
ghost use Rattle.std.specs.Prelude.{◌≡◌};
ghost use Rattle.cy_trace.specs.LineParts.{tape_start};

use cy_msg::{Bytes, Text};

/// A name of channels of a tape.
#[derive(Drop)]
pub(crate) struct TapeName {
    pub(crate) text: Text,
    // What the lines of its messages begin with.
    pub(crate) start: Bytes,
    ghost begins: { start ≡ tape_start text },
}

/// A message of a tape, by the number of its name among the tape's names.
#[derive(Clone, Copy)]
pub struct NamedSeq {
    /// The number of its name.
    pub name: u32,
    /// Its number among the messages of its channel.
    pub seq: u32,
}
