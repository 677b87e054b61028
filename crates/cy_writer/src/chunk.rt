// A chunk, gathered one message after another.
ghost use Rattle.std.specs.Prelude.{◌≡◌, ◌≤◌, ◌+◌, ◌==◌, if◌then◌else◌, min, length};
ghost use Rattle.std.specs.Prelude.{IfOk, IsOkUnless};
ghost use Rattle.cy_writer.specs.private.Counted.{counted_with};

use crate::WriteError;
use crate::error::no_memory_for_section;
use crate::sum::sum;
use cy_section::{
    ChunkHeader, HEAD_SIZE, Piece, SectionKind, message_size, put_head, put_message, set_head,
};
use std::alloc::Global;

/// The longest body of a chunk, in bytes, and the longest time from its first message to another,
/// in nanoseconds.
pub(crate) const CHUNK_RAW_SIZE: u64 = 200_000_000;

pub(crate) const CHUNK_INTERVAL: u64 = 20_000_000_000;

// A body that is no longer than this with a message's name and content has room for the message,
// which takes 64 bytes at most beside them.
const SURE_ROOM: u64 = CHUNK_RAW_SIZE - 64;

/// The numbers of no messages.
pub(crate) const NO_MESSAGES: ChunkHeader = ChunkHeader {
    begin_time: 0,
    end_time: 0,
    message_number: 0,
    raw_size: 0,
};

/// A chunk while it is gathered: the numbers of its header, the time of its first message, and the
/// section of its body, whose head is set when all messages are there.
#[derive(Drop)]
pub(crate) struct Chunk {
    pub header: ChunkHeader,
    pub first_time: u64,
    pub section: Piece,
    ghost headed: { 1 ≤ header.message_number → 16 ≤ length section },
}

// The least time of messages with one more.
fn begin_with(header: &ChunkHeader, time: u64) -> u64
    ensures { result ≡ (if header.now.message_number == 0 then time
        else min header.now.begin_time time) }
{
    match header.message_number {
        0 => time,
        _ => header.begin_time.min(time),
    }
}

/// The numbers of messages with one more, at a time and with a content of so many bytes.
pub(crate) fn counted(header: &ChunkHeader, time: u64, size: u64) -> Result<ChunkHeader, WriteError>
    ensures counted { IfOk result (λ h. h ≡ counted_with header.now time size) }
    ensures only_memory { IsOkUnless result WriteError.Memory }
{
    Ok(ChunkHeader {
        begin_time: begin_with(header, time),
        end_time: header.end_time.max(time),
        message_number: sum(header.message_number, 1)?,
        raw_size: sum(header.raw_size, size)?,
    })
}

impl Chunk {
    ghost use Rattle.std.specs.Prelude.{◌++◌, ◌∷◌, [], List, false, nat_le, drop, OnOk, OnErr};
    ghost use Rattle.std.specs.Bool.{Decides};
    ghost use Rattle.cy_section.specs.declared.types.BodyMessage.{BodyMessage};
    ghost use Rattle.cy_section.specs.declared.types.SectionKind.TheVariants as kind;
    ghost use Rattle.cy_section.specs.Section.{section, chunk_body};
    ghost use Rattle.cy_section.specs.Chunks.{takes, chunk_raw_size};
    ghost use Rattle.cy_writer.specs.Kept.{IsChunkOf};
    ghost use Rattle.cy_writer.specs.private.Steps.{BeginsChunk, PutsMessage};

    /// No messages yet; this takes no memory.
    pub fn new(alloc: Global) -> Self
        ensures { IsChunkOf result [] }
    {
        Chunk {
            header: NO_MESSAGES,
            first_time: 0,
            section: Piece::new(alloc),
        }
    }

    /// Whether there is no message yet.
    pub fn is_empty(&self) -> bool
        ensures { Decides result (self.now.header.message_number ≡ 0) }
    {
        self.header.message_number == 0
    }

    // How many bytes the body has.
    fn body_len(&self) -> u64
        ensures { result ≡ length (drop 16 self.now.section) }
    {
        self.section.bytes().len().saturating_sub(HEAD_SIZE) as u64
    }

    // Whether the body with this message isn't longer than a chunk's may be.
    fn has_room(&self, name: &str, time: u64, content: &[u8]) -> bool
        ensures { (messages : List BodyMessage) → IsChunkOf self.now messages
            → result ≡ nat_le (length
            (chunk_body (messages ++ record {
              channel_name = name.now;
              time = time;
              content =
                  content.now;
            } ∷ []))) chunk_raw_size }
    {
        // A longer name and content are too long by themselves, and are not measured.
        let bytes = (name.len() + content.len()) as u64;
        if bytes > CHUNK_RAW_SIZE {
            return false;
        }
        // Most bodies are so far from full that the message isn't measured either.
        let most = self.section.bytes().len() as u64 + bytes;
        if most <= SURE_ROOM {
            return true;
        }
        let size = message_size(name, time, content);
        self.body_len().saturating_add(size) <= CHUNK_RAW_SIZE
    }

    /// Whether the chunk takes this message.
    pub fn takes(&self, name: &str, time: u64, content: &[u8]) -> bool
        ensures takes { (messages : List BodyMessage) → IsChunkOf self.now messages
            → result ≡ takes messages record {
              channel_name = name.now;
              time = time;
              content =
                  content.now;
            } }
        ensures some { result ≡ false → 1 ≤ self.now.header.message_number }
    {
        if self.is_empty() {
            return true;
        }
        self.has_room(name, time, content) && time <= self.first_time.saturating_add(CHUNK_INTERVAL)
    }

    // Where there is no message yet, makes room for the head, which is set when the chunk is full,
    // and notes the first time.
    fn begin(&mut self, time: u64) -> Result<(), WriteError>
        ensures { BeginsChunk self.old self.new time result }
    {
        if !self.is_empty() {
            return Ok(());
        }
        self.first_time = time;
        self.section.clear();
        put_head(&mut self.section, SectionKind::ChunkBody, 0).map_err(no_memory_for_section)?;
        Ok(())
    }

    // Adds a message to the section, where there is room for the head.
    fn put(&mut self, name: &str, time: u64, content: &[u8]) -> Result<(), WriteError>
        requires { 16 ≤ length self.old.section }
        ensures { PutsMessage self.old self.new
            record { channel_name = name.now; time = time; content = content.now } result }
    {
        put_message(&mut self.section, name, time, content).map_err(no_memory_for_section)?;
        Ok(())
    }

    /// Adds a message that the chunk takes. Want of memory leaves the messages as they were.
    #[inline(always)]
    pub fn add(&mut self, name: &str, time: u64, content: &[u8]) -> Result<(), WriteError>
        ensures added { (messages : List BodyMessage) → IsChunkOf self.old messages
            → OnOk result (IsChunkOf self.new (messages ++ record {
              channel_name = name.now;
              time = time;
              content = content.now;
            } ∷ [])) }
        ensures same { (messages : List BodyMessage) → IsChunkOf self.old messages
            → OnErr result (IsChunkOf self.new messages) }
        ensures only_memory { IsOkUnless result WriteError.Memory }
    {
        let header = counted(&self.header, time, content.len() as u64)?;
        self.begin(time)?;
        self.put(name, time, content)?;
        self.header = header;
        Ok(())
    }

    /// Sets the head of the body's section, which is then whole.
    pub fn finish(&mut self)
        requires { 1 ≤ self.old.header.message_number }
        ensures same { (messages : List BodyMessage) → IsChunkOf self.old messages
            → IsChunkOf self.new messages }
        ensures section { (messages : List BodyMessage) → IsChunkOf self.old messages
            → self.new.section ≡ section kind.ChunkBody (chunk_body messages) }
        ensures header { self.new.header ≡ self.old.header }
    {
        set_head(&mut self.section, SectionKind::ChunkBody);
    }

    /// The section of the body.
    pub fn body_section(&self) -> &[u8]
        ensures { result.now ≡ self.now.section }
    {
        self.section.bytes()
    }

    /// Forgets the messages, and keeps the room.
    pub fn clear(&mut self)
        ensures { IsChunkOf self.new [] }
    {
        self.header = NO_MESSAGES;
        self.section.clear();
    }
}
