//! Contexts: which components a processor scans, in which order, and the first of them that is to
//! be resumed.
//!
//! `specs/Note` reads what a thread at the table noted, `specs/Scan` says what a scan of a context
//! needs and leaves.
#![tactic(auto)]

mod context;
mod error;

pub use context::{Context, take};
pub use error::CtxError;
