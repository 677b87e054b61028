//! The text of a trace, read.
//!
//! `specs/LineReading` has what a line says, and `specs/LineOrder` which line may come next.
//! `specs/Laws` says that just the texts of traces are read.
#![tactic(auto)]

mod building;
mod call;
mod fault;
mod laws;
mod line;
mod name;
mod read;
mod word;

pub use laws::{first_bad_is_one, lines_read_back, texts_tell_traces};
pub use read::read_trace;
