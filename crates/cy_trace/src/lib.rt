//! A trace as a value, and the form of its text.
//!
//! `specs/TraceForm` has the text of any trace, and `specs/TraceOfRun` the trace of a run.
//! `Calls` and `Tape` take the lines that a text begins with by themselves (`specs/Taking`).
#![tactic(auto)]

mod added;
mod calls;
mod ended;
mod error;
mod front;
mod front_call;
mod hints;
mod kept_call;
mod line;
mod named;
mod seqs;
mod tape;
mod tape_lines;
mod trace;
mod turn;
mod word;

pub use calls::Calls;
pub use ended::calls_of;
pub use error::TraceError;
pub use front_call::take_calls;
pub use line::Line;
pub use named::NamedSeq;
pub use seqs::{MOST_MESSAGES, Seqs};
pub use tape::Tape;
pub use trace::{TapeEntry, Trace, TraceCall, TraceComponent, TraceOutput};
pub use word::{behind, cut, cut_last};
