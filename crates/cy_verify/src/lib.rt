//! Whether a trace is that of a lawful run.
//!
//! `specs/Verdict` says what is asked, and what is answered.
#![tactic(auto)]

mod caller;
mod channels;
mod ending;
mod error;
mod follower;
mod heads;
mod judge;
mod made;
mod obedient;
mod timely;
mod verdict;
mod walk;

pub use error::VerifyError;
pub use judge::verify;
pub use verdict::{Told, Verdict};
