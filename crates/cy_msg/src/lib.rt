//! The plain types that the layers hand to one another: texts, bytes and lists, messages as tokens
//! and tuples, channel names, play lists, placements and stops. Also what a replay is asked for,
//! and the parts that the texts of faults have in common: numbers, limits and names, and the line
//! that tells them of a file.
//!
//! `specs/Answer` says of any call that it answers exactly what is due, `specs/Tokens` has what is
//! said of lists of tokens, `specs/Tuple` the messages of a tuple, `specs/Quoted` texts in quotes,
//! `specs/Names` that names keep their numbers, `specs/Placement` the components and processors of
//! contexts, `specs/Once` that nothing stands twice in a list. `specs/Request` says what a replay
//! is asked for, and `specs/Filter` which messages are let through. `specs/FaultText` says how each
//! part of a fault's text is spelled. A crate spells the texts of its own faults, beside the enum
//! that has them.
#![tactic(auto)]

mod error;
mod fault_text;
mod filter;
mod items;
mod names;
mod placement;
mod play_list;
mod quoted;
mod request;
mod stop;
mod text;
mod token;

pub use error::NamesError;
pub use fault_text::{
    push_decimal, push_file, push_limit, push_named, push_number, push_numbers, push_signed,
};
pub use filter::Filter;
pub use items::Items;
pub use names::{MOST_NAMES, Names};
pub use placement::{ContextPlan, MOST_PROCESSORS, Placement};
pub use play_list::{MOST_PLAYED, PlayList};
pub use quoted::push_quoted;
pub use request::{Components, Request, StopAt};
pub use stop::Stop;
pub use text::{Bytes, Text};
pub use token::{Token, Tuple};
