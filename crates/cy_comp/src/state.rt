// The states of a component's routine.

/// Whether a component is to be resumed.
#[derive(Clone, Copy, Debug, PartialEq, Eq)]
pub enum State {
    /// It is to be resumed.
    Ready,
    /// It waits for a message.
    DataWait,
    /// It holds an output back until the clock is past a time.
    Sleep {
        /// That time, in nanoseconds.
        until: u64,
    },
    /// It is never resumed again: it had its last call, or a stop ended it.
    Finished,
}
