// What a replay is set up from.
use crate::Filter;

/// Through which components a record is replayed.
#[derive(Clone, Copy)]
pub enum Components<'a> {
    /// Those of configuration files.
    Files {
        /// The DAG file.
        dag: &'a str,
        /// The scheduler file, where one is given.
        sched: Option<&'a str>,
    },
    /// One that passes the messages of a channel on to another.
    Pass {
        /// The channel that it reads.
        from: &'a str,
        /// The channel that it writes.
        to: &'a str,
    },
}

/// A stop that is asked for: the component that is to end, and from what time on.
#[derive(Clone, Copy)]
pub struct StopAt<'a> {
    /// The name of the component.
    pub component: &'a str,
    /// The stop is raised once the messages up to this time are played, in nanoseconds.
    pub time: u64,
}

/// What a replay is set up from: its components, its record, which messages are played, and the
/// stop.
#[derive(Clone, Copy)]
pub struct Request<'a> {
    /// The components, or the files that name them.
    pub components: Components<'a>,
    /// The record.
    pub input: &'a str,
    /// Which of its messages are let through.
    pub filter: &'a Filter,
    /// The stop, where one is asked for.
    pub stop: Option<StopAt<'a>>,
}
