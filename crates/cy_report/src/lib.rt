//! What commands print of their files and runs.
//!
//! `specs/CheckText` has the text of `check`: the components of a run, where the values of messages
//! are, where the components run, and which fields are not known. `specs/Summary` has the lines of
//! a play and of a lawful run.
#![tactic(auto)]

mod error;
mod lines;
mod summary;
mod text;

pub use error::CheckError;
pub use summary::{lawful_line, summary_line};
pub use text::{SchedulerFile, check_text};
