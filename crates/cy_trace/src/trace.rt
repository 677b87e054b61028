// A trace, as its lines have it.
use crate::{Calls, Seqs, Tape};
use cy_fuse::Overflow;
use cy_msg::{Items, Text};

/// What a call put out.
#[derive(Clone, Copy, PartialEq, Eq)]
pub struct TraceOutput {
    /// Its number among the outputs of its component.
    pub seq: u32,
    /// In nanoseconds.
    pub time: u64,
    /// The whole number that its content stands for, where it stands for one.
    pub value: Option<i64>,
}

/// A call of a component.
#[derive(Drop)]
pub struct TraceCall {
    /// The number of its tuple among those that were fused, from 1.
    pub position: u64,
    /// How many tuples had been fused then.
    pub tail: u64,
    /// The numbers of its one to four messages, in the order of the readers.
    pub seqs: Seqs,
    /// What it put out, if anything.
    pub out: Option<TraceOutput>,
}

/// What came of a component.
#[derive(Drop)]
pub struct TraceComponent {
    pub name: Text,
    /// Which tuple a fetch goes on with where its own isn't kept any more.
    pub overflow: Overflow,
    /// The role of each arrival, from 0 to 9.
    pub roles: Items<u8>,
    pub calls: Calls,
    /// Whether it ended by itself.
    pub finished: bool,
    /// Where its next fetch would begin.
    pub next: u64,
}

/// A message of the tape.
#[derive(Drop)]
pub struct TapeEntry {
    /// The name of its channel.
    pub name: Text,
    /// Its number among the messages of its channel.
    pub seq: u32,
}

/// A trace, line by line.
#[derive(Drop)]
pub struct Trace {
    /// The version of its form: 1 where each component goes on at the newest tuple, which no line
    /// tells, and 2 where the line of each component tells where it goes on.
    pub version: u32,
    /// How many messages were played.
    pub played: u32,
    /// How many messages were shadowed: those stood on a channel that a component writes, and were
    /// not played.
    pub shadowed: u32,
    pub components: Items<TraceComponent>,
    pub tape: Tape,
}
