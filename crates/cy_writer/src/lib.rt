//! The writer of Cyber RT records: it takes channels and messages, and keeps one chunk in memory at
//! a time.
//!
//! `specs/Given` says what a writer was given and what it puts into its file for it, `specs/Stands`
//! what it keeps of that, `specs/Writes` what stands in the store where a write fails.
//! `specs/Record` says what one call comes to that writes a whole record, and `specs/Messages` how
//! its messages are given, `specs/Order` in which order channels first come, and `specs/File` what
//! writing a file in one piece comes to.
#![tactic(auto)]

mod chunk;
mod error;
mod file;
mod headers;
mod kept;
mod laws;
mod messages;
mod order;
mod put;
mod record;
mod sum;
mod writer;
mod writing;

pub use error::WriteError;
pub use file::write_file;
pub use laws::{
    chunks_end_in_time, messages_stand_in_their_chunks, messages_stay_in_order,
    record_writes_leave_the_record, stopped_writes_leave_a_front, stopped_writes_leave_other_files,
};
pub use messages::{Messages, Stamp};
pub use order::ChannelOrder;
pub use record::{ChannelRef, write_record};
pub use writer::RecordWriter;
