//! Records that are put together anew: what is salvaged of a record's file before its first fault,
//! and records that are joined to one.
//!
//! `specs/Salvage` says what is salvaged of a file, and `specs/Joined` what several records come to
//! together.
#![tactic(auto)]

mod merged;
mod salvage;

pub use merged::Merged;
pub use salvage::{Salvaged, salvage_record};
