//! From the files of a replay to what is replayed.
//!
//! `specs/Setup` says what all files of a replay come to, and what it is set up with:
//! `specs/Configuration` what the configuration files come to, `specs/AnswersFile` what a component
//! file comes to that names a record of answers, `specs/Values` which values the files say and what
//! becomes of answers by them, `specs/Passing` what stands in their place where one component
//! passes messages on, `specs/Wiring` what wiring components does, `specs/Stops` what stop it has,
//! `specs/Comes` what a call answers that reads files, `specs/FaultText` how a file that is refused
//! is told. `specs/Apart` says that a file which is written is none of those that are read,
//! `specs/TraceFile` which texts of traces are read, `specs/Merging` what several records come to
//! that are joined to one.
#![tactic(auto)]

mod answers;
mod apart;
mod configuration;
mod counts;
mod error;
mod listing;
mod merging;
mod passing;
mod read;
mod setup;
mod stops;
mod text;
mod trace_file;
mod values;
mod wiring;

pub use apart::{STANDARD_OUTPUT, files_read, test_apart};
pub use configuration::Configuration;
pub use error::{Fault, Refusal, SetupError, failed, refused};
pub use listing::read_record;
pub use merging::read_merged;
pub use passing::pass_is_wired;
pub use read::read_configuration;
pub use setup::{Replay, set_up};
pub use text::LONGEST_CONFIG;
pub use trace_file::read_trace_file;
pub use wiring::{place_components, wire_components};
