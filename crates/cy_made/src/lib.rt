//! The files that `make` makes are accepted as those of a replay: one law, and nothing to run.
//!
//! `specs/Accepted` says it of the files of any prefix that is short, beside any other files.
#![tactic(auto)]

mod laws;

pub use laws::made_files_are_accepted;
