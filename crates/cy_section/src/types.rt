// The five kinds of section, as values, and the fields of those that hold numbers alone.
ghost use Rattle.std.specs.Prelude.{◌≡◌};
ghost use Rattle.cy_section.specs.Rows.{numbered, header_rows, chunk_header_rows};
ghost use Rattle.cy_section.specs.Rows.{chunk_header_cache_rows, chunk_body_cache_rows};

use cy_msg::{Bytes, Items, Text};

/// The type of a section, as its head has it.
#[derive(Clone, Copy, Debug, PartialEq, Eq)]
pub enum SectionKind {
    /// The header of the file.
    Header,
    /// The header of a chunk, which its body follows.
    ChunkHeader,
    /// The messages of a chunk.
    ChunkBody,
    /// The index, which is the last section.
    Index,
    /// A channel's name, type and description.
    Channel,
}

/// The head of a section.
#[derive(Clone, Copy)]
pub struct Head {
    pub kind: SectionKind,
    /// The bytes of the section's body.
    pub size: u64,
}

/// The header of a record. Times and intervals are in nanoseconds, sizes and places in bytes. By
/// default every number in it is 0.
#[derive(Clone, Copy, Default)]
pub struct Header {
    pub major_version: u32,
    pub minor_version: u32,
    /// 0 where chunks are not compressed.
    pub compress: u32,
    pub chunk_interval: u64,
    pub segment_interval: u64,
    /// The place of the index's head.
    pub index_position: u64,
    pub chunk_number: u64,
    pub channel_number: u64,
    /// The least time of a message, 0 where there is none.
    pub begin_time: u64,
    /// The greatest time of a message, 0 where there is none.
    pub end_time: u64,
    pub message_number: u64,
    /// The length of the file.
    pub size: u64,
    /// Whether the writer came to the record's end.
    pub is_complete: bool,
    pub chunk_raw_size: u64,
    pub segment_raw_size: u64,
}

impl Header {
    /// Its fields in the wire form: of each its number, and the number that it holds.
    #[tactic(auto, unfolding(crate::specs::Rows::header_rows))]
    pub fn fields(&self) -> [(u32, u64); 15]
        ensures { result ≡ numbered (header_rows self.now) }
    {
        [
            (1, u64::from(self.major_version)),
            (2, u64::from(self.minor_version)),
            (3, u64::from(self.compress)),
            (4, self.chunk_interval),
            (5, self.segment_interval),
            (6, self.index_position),
            (7, self.chunk_number),
            (8, self.channel_number),
            (9, self.begin_time),
            (10, self.end_time),
            (11, self.message_number),
            (12, self.size),
            (13, u64::from(self.is_complete)),
            (14, self.chunk_raw_size),
            (15, self.segment_raw_size),
        ]
    }
}

/// The header of a chunk.
#[derive(Clone, Copy)]
pub struct ChunkHeader {
    /// The least time in the chunk.
    pub begin_time: u64,
    /// The greatest time in the chunk.
    pub end_time: u64,
    pub message_number: u64,
    /// The bytes of its messages' contents together.
    pub raw_size: u64,
}

impl ChunkHeader {
    /// Its fields in the wire form: of each its number, and the number that it holds.
    #[tactic(auto, unfolding(crate::specs::Rows::chunk_header_rows))]
    pub fn fields(&self) -> [(u32, u64); 4]
        ensures { result ≡ numbered (chunk_header_rows self.now) }
    {
        [
            (1, self.begin_time),
            (2, self.end_time),
            (3, self.message_number),
            (4, self.raw_size),
        ]
    }
}

/// A message as a chunk's body has it.
#[derive(Drop)]
pub struct BodyMessage {
    pub channel_name: Text,
    /// In nanoseconds.
    pub time: u64,
    pub content: Bytes,
}

/// The messages of a chunk.
#[derive(Drop)]
pub struct ChunkBody {
    pub messages: Items<BodyMessage>,
}

/// A channel: its name, the type of its messages and their description.
#[derive(Drop)]
pub struct Channel {
    pub name: Text,
    pub message_type: Text,
    pub proto_desc: Bytes,
}

/// What the index keeps of a channel.
#[derive(Drop)]
pub struct ChannelCache {
    /// The number of its messages in the whole file.
    pub message_number: u64,
    pub name: Text,
    pub message_type: Text,
    pub proto_desc: Bytes,
}

/// What the index keeps of a chunk's header.
#[derive(Clone, Copy)]
pub struct ChunkHeaderCache {
    pub message_number: u64,
    pub begin_time: u64,
    pub end_time: u64,
    pub raw_size: u64,
}

impl ChunkHeaderCache {
    /// Its fields in the wire form: of each its number, and the number that it holds.
    #[tactic(auto, unfolding(crate::specs::Rows::chunk_header_cache_rows))]
    pub fn fields(&self) -> [(u32, u64); 4]
        ensures { result ≡ numbered (chunk_header_cache_rows self.now) }
    {
        [
            (1, self.message_number),
            (2, self.begin_time),
            (3, self.end_time),
            (4, self.raw_size),
        ]
    }
}

/// What the index keeps of a chunk's body.
#[derive(Clone, Copy)]
pub struct ChunkBodyCache {
    pub message_number: u64,
}

impl ChunkBodyCache {
    /// Its fields in the wire form: of each its number, and the number that it holds.
    #[tactic(auto, unfolding(crate::specs::Rows::chunk_body_cache_rows))]
    pub fn fields(&self) -> [(u32, u64); 1]
        ensures { result ≡ numbered (chunk_body_cache_rows self.now) }
    {
        [(1, self.message_number)]
    }
}

/// An entry of the index: a section's type and the place of its head, and what is kept of it.
#[derive(Drop)]
pub struct IndexEntry {
    pub kind: u32,
    pub position: u64,
    pub channel_cache: Option<ChannelCache>,
    pub chunk_header_cache: Option<ChunkHeaderCache>,
    pub chunk_body_cache: Option<ChunkBodyCache>,
}

/// The index of a record: an entry for each section but the header and the index itself, in file
/// order.
#[derive(Drop)]
pub struct Index {
    pub entries: Items<IndexEntry>,
}
