// Writes the index.
ghost use Rattle.std.specs.Prelude.{◌≡◌, ◌++◌, IfOk, OnOk, IsOkUnless, OnErr};
ghost use Rattle.cy_wire.specs.Wire.{field_bytes};
ghost use Rattle.cy_section.specs.Section.{section, optional_field, channel_cache_body};
ghost use Rattle.cy_section.specs.Section.{chunk_header_cache_body, chunk_body_cache_body};
ghost use Rattle.cy_section.specs.Section.{entry_field, index_body};
ghost use Rattle.cy_section.specs.declared.types.SectionKind.TheVariants as kind;

use crate::head_bytes::{no_memory, put_section};
use crate::put::number_fields;
use crate::{
    ChannelCache, ChunkBodyCache, ChunkHeaderCache, Index, IndexEntry, Piece, SectionError,
    SectionKind,
};
use cy_wire::{WireError, Writer};
use std::alloc::Global;

/// Writes what an entry keeps of a channel, if it keeps one.
#[tactic(auto, unfolding(crate::specs::Section::channel_cache_body))]
fn channel_cache(
    alloc: Global,
    to: &mut Writer,
    value: &Option<ChannelCache>,
) -> Result<(), WireError>
    ensures ok { OnOk result (to.new ≡ to.old ++ optional_field 101 channel_cache_body value.now) }
    ensures only_memory { IsOkUnless result WireError.Memory }
{
    let Some(cache) = value else {
        return Ok(());
    };
    let mut body = Writer::new(alloc);
    body.field_u64(1, cache.message_number)?;
    body.field_bytes(2, cache.name.as_str().as_bytes())?;
    body.field_bytes(3, cache.message_type.as_str().as_bytes())?;
    body.field_bytes(4, cache.proto_desc.as_slice())?;
    to.field_bytes(101, body.done())
}

/// Writes what an entry keeps of a chunk's header, if it keeps one.
#[tactic(auto, unfolding(crate::specs::Section::chunk_header_cache_body))]
fn chunk_header_cache(
    alloc: Global,
    to: &mut Writer,
    value: &Option<ChunkHeaderCache>,
) -> Result<(), WireError>
    ensures ok { OnOk result (to.new ≡ to.old
        ++ optional_field 102 chunk_header_cache_body value.now) }
    ensures only_memory { IsOkUnless result WireError.Memory }
{
    let Some(cache) = value else {
        return Ok(());
    };
    let body = number_fields(alloc, &cache.fields())?;
    to.field_bytes(102, body.done())
}

/// Writes what an entry keeps of a chunk's body, if it keeps one.
#[tactic(auto, unfolding(crate::specs::Section::chunk_body_cache_body))]
fn chunk_body_cache(
    alloc: Global,
    to: &mut Writer,
    value: &Option<ChunkBodyCache>,
) -> Result<(), WireError>
    ensures ok { OnOk result (to.new ≡ to.old
        ++ optional_field 103 chunk_body_cache_body value.now) }
    ensures only_memory { IsOkUnless result WireError.Memory }
{
    let Some(cache) = value else {
        return Ok(());
    };
    let body = number_fields(alloc, &cache.fields())?;
    to.field_bytes(103, body.done())
}

/// The fields of an entry.
#[tactic(auto, unfolding(crate::specs::Section::entry_field))]
fn entry_fields(alloc: Global, entry: &IndexEntry) -> Result<Writer, WireError>
    ensures ok { IfOk result (λ w. field_bytes 1 w ≡ entry_field entry.now) }
    ensures only_memory { IsOkUnless result WireError.Memory }
{
    let mut body = Writer::new(alloc);
    body.field_u64(1, u64::from(entry.kind))?;
    body.field_u64(2, entry.position)?;
    channel_cache(alloc, &mut body, &entry.channel_cache)?;
    chunk_header_cache(alloc, &mut body, &entry.chunk_header_cache)?;
    chunk_body_cache(alloc, &mut body, &entry.chunk_body_cache)?;
    Ok(body)
}

/// The body of an index with these entries.
fn index_fields(alloc: Global, entries: &[IndexEntry]) -> Result<Writer, WireError>
    ensures ok { IfOk result (λ w. w ≡ index_body entries.now) }
    ensures only_memory { IsOkUnless result WireError.Memory }
{
    let mut body = Writer::new(alloc);
    for entry in entries {
        let fields = entry_fields(alloc, entry)?;
        body.field_bytes(1, fields.done())?;
    }
    Ok(body)
}

/// Appends the index. Want of memory changes nothing.
pub fn put_index(to: &mut Piece, value: &Index) -> Result<(), SectionError>
    ensures ok { OnOk result (to.new ≡ to.old ++ section kind.Index
        (index_body value.now.entries)) }
    ensures err { OnErr result (to.new ≡ to.old) }
    ensures only_memory { IsOkUnless result SectionError.Memory }
{
    let body = index_fields(to.alloc(), value.entries.as_slice()).map_err(no_memory)?;
    put_section(to, SectionKind::Index, body.done())
}
