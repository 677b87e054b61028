//! Tools over whole records: one makes a record of what stands before the first fault of a file,
//! one cuts a record down to channels and times, and one writes several records as one.
//!
//! `specs/Kept` says which messages of a record are kept and what is written of them,
//! `specs/Tools` what each tool does that reads one file, and `specs/Answer` what it answers;
//! `specs/Merging` what is answered where several are written as one; `specs/Laws` has what holds
//! of every record that is written so.
#![tactic(auto)]

mod error;
mod kept;
mod laws;
mod merging;
mod messages;
mod numbering;
mod recovering;
mod splitting;
mod writing;

pub use error::{File, ToolError};
pub use laws::kept_messages_are_record_text;
pub use merging::write_merged;
pub use recovering::{Recovered, recover};
pub use splitting::{Parted, split};
