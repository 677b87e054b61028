//! The record of a tape, over the record that was read: it is written, or a file is compared with
//! it, piece by piece.
//!
//! `specs/Recording` says what its channels and messages are, `specs/RecordLaws` what holds of
//! every record of a tape. `specs/Compare` says where two texts first differ, and what comparing
//! answers.
#![tactic(auto)]

mod compared;
mod error;
mod judged;
mod known;
mod pieces;
mod played;
mod recording;
mod same;
mod shown;

pub use error::SameError;
pub use played::Played;
pub use recording::{played_places_are_there, tape_record_is_its_text, write_record};
pub use same::same_record;
