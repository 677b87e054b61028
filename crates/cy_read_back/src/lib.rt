//! What is written of a record is read back: the laws of its sections, one by one, and of its whole
//! text. There is nothing to run.
//!
//! `specs/Sections` says what is read of a section that was written, `specs/Records` of a record's
//! text, and within which limits, `specs/Fronts` what is salvaged of the front of one, and
//! `specs/BrokenOff` that a record whose writing was broken off is such a front, and is salvaged.
//! `specs/Puts` says that each section is one of the record's writes.
#![tactic(auto)]

mod laws;

pub use laws::{
    broken_off_are_fronts, fronts_are_salvaged, records_read_back, sections_are_put_once,
    sections_read_back, unfinished_are_salvaged,
};
