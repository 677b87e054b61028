//! The text of `info`: what a record is, in lines.
//!
//! `specs/Info` has the text.
#![tactic(auto)]

mod facts;
mod info;

pub use facts::{Counted, IndexFound};
pub use info::info_text;
