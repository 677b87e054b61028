//! Records that are read: the channels and messages of a file, or its first fault or passed limit
//! with its place.
//!
//! `specs/Record` says what the sections of a file hold together, `specs/United` what records come
//! to that are joined to one, and `specs/FaultText` has the text that says why a file is no record.
#![tactic(auto)]

mod channels;
mod decoding;
mod error;
mod front;
mod gathering;
mod header;
mod joining;
mod kept;
mod known;
mod laws;
mod loaded;
mod loading;
mod named;
mod record;
mod uniting;

pub use channels::place_of;
pub use decoding::least_piece;
pub use error::LoadError;
pub use header::{LONGEST_FILE, file_header};
pub use kept::Kept;
pub use known::Known;
pub use laws::{channels_have_own_names, sections_are_met_as_said};
pub use loaded::Loaded;
pub use loading::read_out;
pub use record::{Record, load, load_whole};
