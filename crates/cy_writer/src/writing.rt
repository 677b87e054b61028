// A writer that is not broken.
ghost use Rattle.std.specs.Prelude.{◌≡◌, ◌≤◌, ◌<◌, ◌+◌, ◌++◌, ◌∷◌, []};
ghost use Rattle.std.specs.Prelude.{length, map, vec_len, vec_capacity, IfOk, OnOk, IsErrOf};
ghost use Rattle.std.specs.Prelude.{IsOkUnless};
ghost use Rattle.std.specs.List.{flat_map};
ghost use Rattle.cy_store.specs.Write.{Put};
ghost use Rattle.cy_store.specs.Store.{HasWriteCauses};
ghost use Rattle.cy_section.specs.declared.types.Channel.{Channel};
ghost use Rattle.cy_section.specs.declared.types.SectionKind.TheVariants as kind;
ghost use Rattle.cy_section.specs.Section.{section, index_body};
ghost use Rattle.cy_writer.specs.Writes.{Makes, PutsInto, IsPutOrNot, puts_into};
ghost use Rattle.cy_writer.specs.Calls.{Begins, PutsChannel, TakesMessage, Closes};
ghost use Rattle.cy_writer.specs.private.Whole.{StaysWhole};
ghost use Rattle.cy_writer.specs.private.Steps.{Prepares, NotesChunk, PutsChunk, Gathers};
ghost use Rattle.cy_writer.specs.Given.{Given, nothing_given, close_puts};
ghost use Rattle.cy_writer.specs.Kept.{cache_of as counted_cache, channel_entry, header_entry};
ghost use Rattle.cy_writer.specs.Kept.{body_entry};
ghost use Rattle.cy_writer.specs.Stands.{StandsFor, IsHeld};

use crate::WriteError;
use crate::chunk::{Chunk, NO_MESSAGES, counted};
use crate::error::{no_memory_for_section, no_memory_for_text};
use crate::file::write_file;
use crate::headers::{Counts, complete, header_section, incomplete};
use crate::kept::{KeptChannel, KeptChunk, index_entries};
use crate::put::{put, put_both};
use crate::sum::sum;
use cy_msg::{Items, Text};
use cy_section::{
    Channel, ChannelCache, ChunkHeader, HEADER_SIZE, Index, Piece, put_channel, put_chunk_header,
    put_index,
};
use cy_store::Store;
use std::alloc::Global;

/// What a writer keeps: the length of the file so far, the channels and chunks that were put, the
/// chunk that is gathered, and the numbers of all messages.
#[derive(Drop)]
pub(crate) struct Writing {
    pub name: Text,
    pub place: u64,
    pub channels: Vec<KeptChannel>,
    pub chunks: Vec<KeptChunk>,
    pub chunk: Chunk,
    pub counted: ChunkHeader,
}

// What is put for a chunk beside its body, and the places of the body's section and of what follows
// it.
#[derive(Drop)]
struct Prepared {
    header: Piece,
    body_position: u64,
    end: u64,
}

// What is kept of a channel, on which no message stands yet.
fn cache_of(channel: Channel) -> ChannelCache
    ensures { result ≡ counted_cache [] channel }
{
    ChannelCache {
        message_number: 0,
        name: channel.name,
        message_type: channel.message_type,
        proto_desc: channel.proto_desc,
    }
}

// The section of the index.
fn index_section(
    alloc: Global,
    channels: Vec<KeptChannel>,
    chunks: &[KeptChunk],
) -> Result<Piece, WriteError>
    ensures section { IfOk result (λ p. p ≡ section kind.Index
        (index_body (map channel_entry channels.items
        ++ flat_map (λ k. header_entry k ∷ body_entry k ∷ []) chunks.now))) }
    ensures only_memory { IsOkUnless result WriteError.Memory }
{
    let index = Index {
        entries: Items::new(index_entries(alloc, channels, chunks)?),
    };
    let mut section = Piece::new(alloc);
    put_index(&mut section, &index).map_err(no_memory_for_section)?;
    Ok(section)
}

impl Writing {
    /// A writer of a file that has nothing yet.
    pub fn new(alloc: Global, name: &str) -> Result<Self, WriteError>
        ensures given { IfOk result (λ o. StandsFor o (nothing_given name.now)) }
        ensures only_memory { IsOkUnless result WriteError.Memory }
    {
        Ok(Writing {
            name: Text::new(alloc, name).map_err(no_memory_for_text)?,
            place: HEADER_SIZE as u64,
            channels: Vec::new(alloc),
            chunks: Vec::new(alloc),
            chunk: Chunk::new(alloc),
            counted: NO_MESSAGES,
        })
    }

    /// Makes the file, and puts the header of a record that is still being written.
    pub fn begin<S: Store>(&self, alloc: Global, store: &mut S) -> Result<(), WriteError>
        ensures { Begins self.now.name (S.shows store.old) (S.shows store.new) result }
    {
        let header = header_section(alloc, &incomplete())?;
        write_file(store, self.name.as_str(), header.bytes())
    }

    /// Puts a channel.
    pub fn channel<S: Store>(
        &mut self,
        alloc: Global,
        store: &mut S,
        channel: Channel,
    ) -> Result<(), WriteError>
        requires { IsHeld self.old (S.shows store.old).files }
        ensures puts { PutsChannel (StandsFor self.old) (StandsFor self.new) channel
            (S.shows store.old) (S.shows store.new) result }
        ensures stays { StaysWhole self.old self.new (S.shows store.new) result }
        ensures one_more { OnOk result (length self.new.channels.items
            ≡ length self.old.channels.items + 1) }
    {
        let mut section = Piece::new(alloc);
        put_channel(&mut section, &channel).map_err(no_memory_for_section)?;
        let end = sum(self.place, section.bytes().len() as u64)?;
        self.channels.reserve(1)?;
        put(store, self.name.as_str(), self.place, section.bytes())?;
        self.channels.push_reserved(KeptChannel {
            position: self.place,
            cache: cache_of(channel),
        });
        self.place = end;
        Ok(())
    }

    // Makes all that is needed to put the chunk that is gathered.
    fn prepared(&mut self, alloc: Global) -> Result<Prepared, WriteError>
        requires { 1 ≤ self.old.chunk.header.message_number }
        ensures { Prepares self.old self.new result }
    {
        let mut header = Piece::new(alloc);
        put_chunk_header(&mut header, &self.chunk.header).map_err(no_memory_for_section)?;
        self.chunks.reserve(1)?;
        self.chunk.finish();
        let body_position = sum(self.place, header.bytes().len() as u64)?;
        let end = sum(body_position, self.chunk.body_section().len() as u64)?;
        Ok(Prepared {
            header,
            body_position,
            end,
        })
    }

    // Puts the two sections of a chunk.
    fn put_sections<S: Store>(&self, store: &mut S, prepared: &Prepared) -> Result<(), WriteError>
        requires held { IsHeld self.now (S.shows store.old).files }
        requires follows { prepared.now.body_position
            ≡ self.now.place + length prepared.now.header }
        ensures puts { PutsInto self.now.name (Put self.now.name self.now.place prepared.now.header
            ∷ Put self.now.name prepared.now.body_position self.now.chunk.section ∷ [])
            (prepared.now.body_position + length self.now.chunk.section)
            (λ files. IsPutOrNot (Put self.now.name self.now.place prepared.now.header)
            (S.shows store.old).files files) (S.shows store.old) (S.shows store.new) result }
        ensures held { (IsErrOf result WriteError.Failed → ⊥)
            → IsHeld self.now (S.shows store.new).files }
        ensures unbroken { IsErrOf result WriteError.Broken → ⊥ }
    {
        let body = self.chunk.body_section();
        put_both(
            store,
            self.name.as_str(),
            self.place,
            prepared.header.bytes(),
            prepared.body_position,
            body,
        )
    }

    // Notes the chunk that was put, and begins the next one.
    fn note_chunk(&mut self, prepared: &Prepared)
        requires { vec_len self.old.chunks + 1 ≤ vec_capacity self.old.chunks }
        ensures { NotesChunk self.old self.new prepared.now }
    {
        self.chunks.push_reserved(KeptChunk {
            header_position: self.place,
            body_position: prepared.body_position,
            header: self.chunk.header,
        });
        self.place = prepared.end;
        self.chunk.clear();
    }

    // Puts the chunk that is gathered, and begins the next one.
    fn put_chunk<S: Store>(&mut self, alloc: Global, store: &mut S) -> Result<(), WriteError>
        requires held { IsHeld self.old (S.shows store.old).files }
        requires some { 1 ≤ self.old.chunk.header.message_number }
        ensures { PutsChunk self.old self.new (S.shows store.old) (S.shows store.new) result }
    {
        let prepared = self.prepared(alloc)?;
        self.put_sections(store, &prepared)?;
        self.note_chunk(&prepared);
        Ok(())
    }

    // Gathers a message, which the chunk takes.
    #[inline(always)]
    fn gather(&mut self, channel: u32, time: u64, content: &[u8]) -> Result<(), WriteError>
        requires { channel < length self.old.channels.items }
        ensures { Gathers self.old self.new channel time content.now result }
    {
        let all = counted(&self.counted, time, content.len() as u64)?;
        let kept = &mut self.channels[channel as usize];
        let number = kept.cache.message_number.checked_add(1);
        let number = number.ok_or(WriteError::Memory)?;
        self.chunk.add(kept.cache.name.as_str(), time, content)?;
        kept.cache.message_number = number;
        self.counted = all;
        Ok(())
    }

    /// Takes a message of a channel.
    #[inline(always)]
    pub fn message<S: Store>(
        &mut self,
        alloc: Global,
        store: &mut S,
        channel: u32,
        time: u64,
        content: &[u8],
    ) -> Result<(), WriteError>
        requires channel { channel < length self.old.channels.items }
        requires held { IsHeld self.old (S.shows store.old).files }
        ensures takes { TakesMessage (StandsFor self.old)
            (StandsFor self.new) channel time content.now
            (S.shows store.old) (S.shows store.new) result }
        ensures stays { StaysWhole self.old self.new (S.shows store.new) result }
    {
        let name = self.channels[channel as usize].cache.name.as_str();
        if self.chunk.takes(name, time, content) {
            return self.gather(channel, time, content);
        }
        self.put_chunk(alloc, store)?;
        self.gather(channel, time, content)
    }

    // Puts the index and the complete header.
    fn put_end<S: Store>(self, alloc: Global, store: &mut S) -> Result<(), WriteError>
        requires { IsHeld self (S.shows store.old).files }
        ensures makes { (g : Given) → StandsFor self g → g.gathered ≡ []
            → Makes (puts_into g.name (close_puts g)) (S.shows store.old)
            (S.shows store.new) result }
        ensures unbroken { IsErrOf result WriteError.Broken → ⊥ }
        ensures causes { HasWriteCauses (IsErrOf result WriteError.Failed) (S.shows store.old)
            (S.shows store.new) }
    {
        let Writing {
            name,
            place,
            channels,
            chunks,
            counted,
            ..
        } = self;
        let channel_number = channels.len() as u64;
        let index = index_section(alloc, channels, &chunks)?;
        let counts = Counts {
            chunk_number: chunks.len() as u64,
            channel_number,
            index_position: place,
            size: sum(place, index.bytes().len() as u64)?,
        };
        let header = header_section(alloc, &complete(&counts, &counted))?;
        put_both(
            store,
            name.as_str(),
            place,
            index.bytes(),
            0,
            header.bytes(),
        )
    }

    /// Puts the last chunk, the index and the complete header.
    pub fn close<S: Store>(self, alloc: Global, store: &mut S) -> Result<(), WriteError>
        requires { IsHeld self (S.shows store.old).files }
        ensures closes { Closes (StandsFor self) (S.shows store.old) (S.shows store.new) result }
        ensures unbroken { IsErrOf result WriteError.Broken → ⊥ }
    {
        if self.chunk.is_empty() {
            return self.put_end(alloc, store);
        }
        let mut writing = self;
        writing.put_chunk(alloc, store)?;
        writing.put_end(alloc, store)
    }
}
