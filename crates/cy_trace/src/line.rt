// The lines of a trace, each as a value.
use crate::{TapeEntry, TraceCall};
use cy_fuse::Overflow;
use cy_msg::{Items, Text};

/// A line of a trace.
#[derive(Drop)]
pub enum Line {
    /// The first line, with the version of the form.
    Title(u32),
    /// How many messages were played, and how many were shadowed.
    Played(u32, u32),
    /// A component by its name, and the overflow that is told of it.
    Component(Text, Option<Overflow>),
    /// The role of each arrival.
    Roles(Items<u8>),
    /// A call.
    Call(TraceCall),
    /// Whether the component has ended, and where its next fetch would begin.
    End(bool, u64),
    /// A message of the tape.
    Tape(TapeEntry),
}
