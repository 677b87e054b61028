//! One way to read the messages of a configuration file: each format says once which fields its
//! messages may hold, and what follows from that is the same for all of them.
//!
//! `specs/Tables` says what the table of a message is, `specs/Kinds` what values are of a kind,
//! `specs/Lookups` what a message holds under a name, and `specs/Checks` which field is the first
//! whose value isn't of its kind, and which fields a format doesn't know.
#![tactic(auto)]

mod checks;
mod error;
mod field;
mod lookup;
mod path;
mod tally;

pub use checks::check;
pub use error::ConfigError;
pub use field::{Described, Field, Kind};
pub use lookup::{
    i32_under, last_under, message_under, messages_under, text_under, u32_under, values_under,
    whole_under,
};
