//! The sections of a Cyber RT record: what a whole record is made of, and how each is read. As
//! bytes, each is written at the end of a [`Piece`].
//!
//! `specs/Rows` has the messages that hold numbers alone, a row a field, `specs/Section` the bytes
//! of each section, `specs/Chunks` where a chunk ends, `specs/RecordText` the bytes of a record.
//! `specs/Head` and `specs/Reading` have what is read: a head, and the value of a body, or the
//! first fault with its place, which `specs/FaultText` tells. `specs/Puts` says what a written
//! header leaves.
#![tactic(auto)]

mod body;
mod entries;
mod error;
mod head;
mod head_bytes;
mod index;
mod message;
mod piece;
mod put;
mod read;
mod types;

pub use body::{MessageReader, MessageView, read_chunk_body};
pub use entries::read_index;
pub use error::SectionError;
pub use head::{HEAD_SIZE, HEADER_SIZE, read_head};
pub use head_bytes::{put_head, set_head};
pub use index::put_index;
pub use message::{message_size, put_chunk_body, put_message};
pub use piece::Piece;
pub use put::{put_channel, put_chunk_header, put_header};
pub use read::{read_channel, read_chunk_header, read_header};
pub use types::{
    BodyMessage, Channel, ChannelCache, ChunkBody, ChunkBodyCache, ChunkHeader, ChunkHeaderCache,
    Head, Header, Index, IndexEntry, SectionKind,
};
