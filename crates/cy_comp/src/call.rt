// What a call takes and gives.
use cy_msg::Tuple;

/// What a call puts out: a message that has no number on its channel yet.
#[derive(Clone, Copy, Debug, PartialEq, Eq)]
pub struct Out {
    /// Its time, in nanoseconds.
    pub time: u64,
    /// The whole number that its content stands for, where it stands for one.
    pub whole: Option<i64>,
    /// The place in the play list of the message whose content it has; none where its content is
    /// the written form of `whole`.
    pub origin: Option<u32>,
}

/// What a component answers to a call.
#[derive(Clone, Copy, Debug, PartialEq, Eq)]
pub enum Outcome {
    /// An output, or none, at once.
    Emit(Option<Out>),
    /// An output that is held back until the clock is past a time.
    Hold {
        /// That time, in nanoseconds.
        until: u64,
        /// The output.
        out: Out,
    },
    /// An output, or none, after which the component is never called again.
    Last(Option<Out>),
}

/// A call of a component.
#[derive(Clone, Copy, Debug, PartialEq, Eq)]
pub struct Call {
    /// The number of the tuple among those that were fused, from 1.
    pub position: u64,
    /// How many tuples had been fused then.
    pub tail: u64,
    /// The tuple.
    pub tuple: Tuple,
    /// What the call put out, at once or held back.
    pub out: Option<Out>,
}
