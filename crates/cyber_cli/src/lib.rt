//! The calls of the program `cyber`, for other programs too: they play recorded messages through
//! components.
//!
//! `specs/Ends` says what they answer, `specs/Told` how it is told. What is due for each command
//! says `cy_commands`, which words ask for which command `cy_args`.
#![tactic(auto)]

mod program;
mod telling;
mod threads;

pub use cy_commands::Status;
pub use program::{cyber, cyber_still};
