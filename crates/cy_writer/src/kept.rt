// What is kept of the sections that were put, for the index.
ghost use Rattle.std.specs.Prelude.{◌≡◌, ◌++◌, ◌∷◌, [], map, IfOk, IsOkUnless};
ghost use Rattle.std.specs.List.{flat_map};
ghost use Rattle.cy_writer.specs.Kept.{channel_entry as entry_of_channel};
ghost use Rattle.cy_writer.specs.Kept.{header_entry as entry_of_header};
ghost use Rattle.cy_writer.specs.Kept.{body_entry as entry_of_body};

use crate::WriteError;
use cy_section::{
    ChannelCache, ChunkBodyCache, ChunkHeader, ChunkHeaderCache, IndexEntry, SectionKind,
};
use std::alloc::Global;

/// A channel, the number of its messages so far, and the place of its section's head.
#[derive(Drop)]
pub(crate) struct KeptChannel {
    pub position: u64,
    pub cache: ChannelCache,
}

/// A chunk that was put: its header, and the places of its two sections' heads.
#[derive(Clone, Copy)]
pub(crate) struct KeptChunk {
    pub header_position: u64,
    pub body_position: u64,
    pub header: ChunkHeader,
}

// The entry of a channel.
fn channel_entry(channel: KeptChannel) -> IndexEntry
    ensures { result ≡ entry_of_channel channel }
{
    IndexEntry {
        kind: SectionKind::Channel.number(),
        position: channel.position,
        channel_cache: Some(channel.cache),
        chunk_header_cache: None,
        chunk_body_cache: None,
    }
}

// The entry of a chunk's header.
fn header_entry(chunk: &KeptChunk) -> IndexEntry
    ensures { result ≡ entry_of_header chunk.now }
{
    IndexEntry {
        kind: SectionKind::ChunkHeader.number(),
        position: chunk.header_position,
        channel_cache: None,
        chunk_header_cache: Some(ChunkHeaderCache {
            message_number: chunk.header.message_number,
            begin_time: chunk.header.begin_time,
            end_time: chunk.header.end_time,
            raw_size: chunk.header.raw_size,
        }),
        chunk_body_cache: None,
    }
}

// The entry of a chunk's body.
fn body_entry(chunk: &KeptChunk) -> IndexEntry
    ensures { result ≡ entry_of_body chunk.now }
{
    IndexEntry {
        kind: SectionKind::ChunkBody.number(),
        position: chunk.body_position,
        channel_cache: None,
        chunk_header_cache: None,
        chunk_body_cache: Some(ChunkBodyCache {
            message_number: chunk.header.message_number,
        }),
    }
}

// The entries of channels.
fn channel_entries(alloc: Global, channels: Vec<KeptChannel>) -> Result<Vec<IndexEntry>, WriteError>
    ensures entries { IfOk result (λ v. v.items ≡ map entry_of_channel channels.items) }
    ensures only_memory { IsOkUnless result WriteError.Memory }
{
    let mut entries = Vec::with_capacity(alloc, channels.len())?;
    for channel in channels {
        entries.push(channel_entry(channel))?;
    }
    Ok(entries)
}

/// The entries of the index, in file order.
pub(crate) fn index_entries(
    alloc: Global,
    channels: Vec<KeptChannel>,
    chunks: &[KeptChunk],
) -> Result<Vec<IndexEntry>, WriteError>
    ensures entries { IfOk result (λ v. v.items ≡ map entry_of_channel channels.items
        ++ flat_map (λ k. entry_of_header k ∷ entry_of_body k ∷ []) chunks.now) }
    ensures only_memory { IsOkUnless result WriteError.Memory }
{
    let mut entries = channel_entries(alloc, channels)?;
    for chunk in chunks {
        entries.push(header_entry(chunk))?;
        entries.push(body_entry(chunk))?;
    }
    Ok(entries)
}
