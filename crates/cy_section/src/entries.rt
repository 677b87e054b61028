// Reads the index.
ghost use Rattle.std.specs.Prelude.{◌≡◌, ◌+◌, ◌<◌, ◌^◌, length};
ghost use Rattle.std.specs.Option.{option_map};
ghost use Rattle.cy_msg.specs.Answer.{AnswersOr};
ghost use Rattle.cy_wire.specs.Field.{seen};
ghost use Rattle.cy_wire.specs.Message.{seen_span};
ghost use Rattle.cy_section.specs.private.Entries.{TakesPart, KeepsEntry, chunk_caches, entry_of};
ghost use Rattle.cy_section.specs.Reading.{channel_cache_at, chunk_header_cache_at};
ghost use Rattle.cy_section.specs.Reading.{chunk_body_cache_at, if_given, entry_at, index_at};

use crate::read::{channel_of, low_32, numbers_of, owned};
use crate::{
    Channel, ChannelCache, ChunkBodyCache, ChunkHeaderCache, Index, IndexEntry, SectionError,
};
use cy_msg::Items;
use cy_wire::{Field, Reader, Span};
use std::alloc::Global;

// What an entry keeps of a channel.
#[tactic(auto, unfolding(crate::specs::Reading::channel_cache_at))]
fn cached_channel(alloc: Global, span: Span<'_>) -> Result<ChannelCache, SectionError>
    ensures { AnswersOr SectionError.Memory (λ c. c) result
        (channel_cache_at (seen_span span.entry)) }
{
    let channel = channel_of(span, 2)?;
    let numbers = numbers_of(span.bytes, span.start)?;
    let Channel {
        name,
        message_type,
        proto_desc,
    } = owned(alloc, &channel)?;
    Ok(ChannelCache {
        message_number: numbers[1],
        name,
        message_type,
        proto_desc,
    })
}

// The same, if it keeps one.
fn channel_cache(
    alloc: Global,
    cache: Option<Span<'_>>,
) -> Result<Option<ChannelCache>, SectionError>
    ensures { AnswersOr SectionError.Memory (λ c. c) result
        (if_given channel_cache_at (option_map seen_span cache.entry)) }
{
    match cache {
        Some(span) => Ok(Some(cached_channel(alloc, span)?)),
        None => Ok(None),
    }
}

// What an entry keeps of a chunk's header, if it keeps one.
#[tactic(auto, unfolding(crate::specs::Reading::chunk_header_cache_at))]
fn chunk_header_cache(cache: Option<Span<'_>>) -> Result<Option<ChunkHeaderCache>, SectionError>
    ensures { result ≡ if_given chunk_header_cache_at (option_map seen_span cache.entry) }
{
    let Some(span) = cache else {
        return Ok(None);
    };
    let numbers = numbers_of(span.bytes, span.start)?;
    Ok(Some(ChunkHeaderCache {
        message_number: numbers[1],
        begin_time: numbers[2],
        end_time: numbers[3],
        raw_size: numbers[4],
    }))
}

// What an entry keeps of a chunk's body, if it keeps one.
#[tactic(auto, unfolding(crate::specs::Reading::chunk_body_cache_at))]
fn chunk_body_cache(cache: Option<Span<'_>>) -> Result<Option<ChunkBodyCache>, SectionError>
    ensures { result ≡ if_given chunk_body_cache_at (option_map seen_span cache.entry) }
{
    let Some(span) = cache else {
        return Ok(None);
    };
    let numbers = numbers_of(span.bytes, span.start)?;
    Ok(Some(ChunkBodyCache {
        message_number: numbers[1],
    }))
}

// What an entry keeps of a chunk's header and of its body.
fn chunk_caches(
    header: Option<Span<'_>>,
    body: Option<Span<'_>>,
) -> Result<(Option<ChunkHeaderCache>, Option<ChunkBodyCache>), SectionError>
    ensures { result ≡ chunk_caches (option_map seen_span header.entry)
        (option_map seen_span body.entry) }
{
    let header = chunk_header_cache(header)?;
    let body = chunk_body_cache(body)?;
    Ok((header, body))
}

// The fields of an entry, of each the last one that was read so far.
#[derive(Clone, Copy)]
pub(crate) struct Parts<'a> {
    pub kind: u64,
    pub position: u64,
    pub channel: Option<Span<'a>>,
    pub header: Option<Span<'a>>,
    pub body: Option<Span<'a>>,
}

impl<'a> Parts<'a> {
    // Takes a field: it is one part at most.
    #[tactic(auto, using(crate::proofs::Bodies::spans))]
    fn take(&mut self, field: &Field<'a>)
        ensures { TakesPart (seen field.now) self.old self.new }
    {
        self.kind = field.varint(1).unwrap_or(self.kind);
        self.position = field.varint(2).unwrap_or(self.position);
        self.channel = field.span(101).or(self.channel);
        self.header = field.span(102).or(self.header);
        self.body = field.span(103).or(self.body);
    }

    // The entry of these parts.
    fn entry(self, alloc: Global) -> Result<IndexEntry, SectionError>
        ensures { AnswersOr SectionError.Memory (λ e. e) result (entry_of self.entry) }
    {
        let channel_cache = channel_cache(alloc, self.channel)?;
        match chunk_caches(self.header, self.body) {
            Ok((chunk_header_cache, chunk_body_cache)) => Ok(IndexEntry {
                kind: low_32(self.kind),
                position: self.position,
                channel_cache,
                chunk_header_cache,
                chunk_body_cache,
            }),
            Err(fault) => {
                drop(channel_cache);
                Err(fault)
            }
        }
    }
}

// An entry: which cache of a kind counts is known once all its fields were read.
#[tactic(auto, unfolding(crate::specs::Reading::entry_at, crate::specs::Reading::entry_in))]
fn entry_of(alloc: Global, entry: Span<'_>) -> Result<IndexEntry, SectionError>
    ensures { AnswersOr SectionError.Memory (λ e. e) result (entry_at (seen_span entry.entry)) }
{
    let mut fields = Reader::new(entry.bytes, entry.start);
    let mut parts = Parts {
        kind: 0,
        position: 0,
        channel: None,
        header: None,
        body: None,
    };
    while let Some(field) = fields.next_field()? {
        parts.take(&field);
    }
    parts.entry(alloc)
}

// Reads an entry, and keeps it behind others.
fn keep_entry(
    alloc: Global,
    entries: &mut Vec<IndexEntry>,
    entry: Span<'_>,
) -> Result<(), SectionError>
    ensures { KeepsEntry (seen_span entry.entry) entries.old.items entries.new.items result }
{
    entries.push(entry_of(alloc, entry)?)?;
    Ok(())
}

// The entries of an index.
fn entries_of(alloc: Global, body: &[u8], at: u64) -> Result<Vec<IndexEntry>, SectionError>
    requires { at + length body.now < 2 ^ 64 }
    ensures { AnswersOr SectionError.Memory (λ v. v.items) result (index_at at body.now) }
{
    let mut reader = Reader::new(body, at);
    let mut entries = Vec::new(alloc);
    while let Some(field) = reader.next_field()? {
        if let Some(span) = field.span(1) {
            keep_entry(alloc, &mut entries, span)?;
        }
    }
    Ok(entries)
}

/// The index whose body stands at a place of the file, in memory of its own.
pub fn read_index(alloc: Global, body: &[u8], at: u64) -> Result<Index, SectionError>
    requires { at + length body.now < 2 ^ 64 }
    ensures { AnswersOr SectionError.Memory (λ i. i.entries) result (index_at at body.now) }
{
    let entries = Items::new(entries_of(alloc, body, at)?);
    Ok(Index { entries })
}
