// What is kept of a call.
use crate::Out;

/// The numbers of the messages of a tuple, each among those of its channel, in the order of the
/// readers.
#[derive(Clone, Copy, Debug, PartialEq, Eq)]
pub enum TupleSeqs {
    /// Of one reader.
    One(u32),
    /// Of two readers.
    Two(u32, u32),
    /// Of three readers.
    Three(u32, u32, u32),
    /// Of four readers.
    Four(u32, u32, u32, u32),
}

/// A call, with the numbers of its messages in place of the messages.
#[derive(Clone, Copy, Debug, PartialEq, Eq)]
pub struct CallSummary {
    /// The number of the tuple among those that were fused, from 1.
    pub position: u64,
    /// How many tuples had been fused then.
    pub tail: u64,
    /// The numbers of the tuple's messages.
    pub seqs: TupleSeqs,
    /// What the call put out, at once or held back.
    pub out: Option<Out>,
}
