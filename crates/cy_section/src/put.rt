// Writes the sections of a few numbers and texts: the header, a chunk's header, a channel.
ghost use Rattle.std.specs.Prelude.{◌≡◌, ◌-◌, ◌≤◌, ◌++◌, length, replicate, IfOk, OnOk, OnErr};
ghost use Rattle.std.specs.Prelude.{IsOkUnless};
ghost use Rattle.cy_section.specs.Rows.{numbers_body};
ghost use Rattle.cy_section.specs.Section.{section, header_body, header_section};
ghost use Rattle.cy_section.specs.Section.{chunk_header_body, channel_body};
ghost use Rattle.cy_section.specs.Puts.{PutsHeader};
ghost use Rattle.cy_section.specs.declared.types.SectionKind.TheVariants as kind;

use crate::head_bytes::{head_of, no_memory, put_section};
use crate::{Channel, ChunkHeader, HEADER_SIZE, Header, Piece, SectionError, SectionKind};
use cy_wire::{WireError, Writer};
use std::alloc::Global;

/// The room that a writer wants for a field that holds a number, in bytes.
const FIELD_ROOM: usize = 20;

/// Writes fields that hold numbers: of each its field number, with wire type 0, and its number.
pub(crate) fn number_fields(alloc: Global, fields: &[(u32, u64)]) -> Result<Writer, WireError>
    ensures ok { IfOk result (λ w. w ≡ numbers_body fields.now) }
    ensures only_memory { IsOkUnless result WireError.Memory }
{
    let mut body = Writer::with_capacity(alloc, fields.len().saturating_mul(FIELD_ROOM))?;
    for (number, value) in fields {
        body.varint(u64::from(*number) * 8)?;
        body.varint(*value)?;
    }
    Ok(body)
}

#[tactic(auto, unfolding(crate::specs::Section::channel_body))]
fn channel_fields(alloc: Global, value: &Channel) -> Result<Writer, WireError>
    ensures ok { IfOk result (λ w. w ≡ channel_body value.now) }
    ensures only_memory { IsOkUnless result WireError.Memory }
{
    let mut body = Writer::new(alloc);
    body.field_bytes(1, value.name.as_str().as_bytes())?;
    body.field_bytes(2, value.message_type.as_str().as_bytes())?;
    body.field_bytes(3, value.proto_desc.as_slice())?;
    Ok(body)
}

/// The header's head and fields, without the zeros that follow.
#[tactic(auto, using(crate::proofs::Lengths::header_fits), unfolding(crate::specs::Section::section, crate::specs::Section::header_body))]
fn header_front(alloc: Global, value: &Header) -> Result<Writer, WireError>
    ensures ok { IfOk result (λ w. w ≡ section kind.Header (header_body value.now)) }
    ensures only_memory { IsOkUnless result WireError.Memory }
{
    let fields = number_fields(alloc, &value.fields())?;
    let mut front = Writer::new(alloc);
    front.bytes(&head_of(SectionKind::Header, fields.done().len() as u64))?;
    front.bytes(fields.done())?;
    Ok(front)
}

/// Appends the front of a header's section, and zeros as far as the section goes.
#[tactic(auto, using(crate::proofs::Lengths::zeros))]
fn put_filled(to: &mut Piece, front: &[u8]) -> Result<(), SectionError>
    requires { length front.now ≤ 2064 }
    ensures { PutsHeader (front.now ++ replicate (2064 - length front.now) 0) to.old to.new result }
{
    let zeros = [0; HEADER_SIZE];
    to.append(front, &zeros[front.len()..])
}

/// Appends a record's header and the zeros that fill its section up to 2064 bytes. Want of memory
/// changes nothing.
#[tactic(auto, using(crate::proofs::Lengths::header_fits))]
pub fn put_header(to: &mut Piece, value: &Header) -> Result<(), SectionError>
    ensures { PutsHeader (header_section value.now) to.old to.new result }
{
    let front = header_front(to.alloc(), value).map_err(no_memory)?;
    put_filled(to, front.done())
}

/// Appends a chunk's header. Want of memory changes nothing.
#[tactic(auto, unfolding(crate::specs::Section::chunk_header_body))]
pub fn put_chunk_header(to: &mut Piece, value: &ChunkHeader) -> Result<(), SectionError>
    ensures ok { OnOk result (to.new ≡ to.old ++ section kind.ChunkHeader
        (chunk_header_body value.now)) }
    ensures err { OnErr result (to.new ≡ to.old) }
    ensures only_memory { IsOkUnless result SectionError.Memory }
{
    let body = number_fields(to.alloc(), &value.fields()).map_err(no_memory)?;
    put_section(to, SectionKind::ChunkHeader, body.done())
}

/// Appends a channel. Want of memory changes nothing.
pub fn put_channel(to: &mut Piece, value: &Channel) -> Result<(), SectionError>
    ensures ok { OnOk result (to.new ≡ to.old ++ section kind.Channel (channel_body value.now)) }
    ensures err { OnErr result (to.new ≡ to.old) }
    ensures only_memory { IsOkUnless result SectionError.Memory }
{
    let body = channel_fields(to.alloc(), value).map_err(no_memory)?;
    put_section(to, SectionKind::Channel, body.done())
}
