//! The trace of a run, written as text.
//!
//! `specs/TraceText` has the text of any run, and `specs/Parts` the same in parts.
//! `specs/Laws` says that the text is read back; `specs/Telling` says that the trace of a lawful
//! run determines it.
#![tactic(auto)]

mod laws;
mod lines;
mod numeral;
mod page;
mod parts;
mod start;
mod text;
mod typed;

pub use laws::{runs_are_read_back, runs_are_traces, traces_tell_runs};
pub use parts::{Part, push_texts, trace_parts};
pub use text::trace_text;
pub use typed::{trace_is_read_back, traces_of_runs_fit};
