// Writes a section's head, and a section whose body stands as bytes.
ghost use Rattle.std.specs.Prelude.{◌≡◌, ◌+◌, ◌≤◌, ◌++◌, length, take, drop, OnOk, OnErr};
ghost use Rattle.std.specs.Prelude.{IsOkUnless};
ghost use Rattle.cy_section.specs.Section.{head_bytes, section};

use crate::{HEAD_SIZE, Piece, SectionError, SectionKind};
use byteorder::{ByteOrder, LittleEndian};
use cy_wire::WireError;

/// The head of a section of this kind, whose body has so many bytes.
pub(crate) fn head_of(kind: SectionKind, size: u64) -> [u8; 16]
    ensures { result ≡ head_bytes kind size }
{
    let mut head = [0; 16];
    LittleEndian::write_u32(&mut head, kind.number());
    LittleEndian::write_u64(&mut head[8..], size);
    head
}

/// A body that could not be written: there was no memory.
pub(crate) fn no_memory(_: WireError) -> SectionError
    ensures { result ≡ SectionError.Memory }
{
    SectionError::Memory
}

/// Appends the head of a section of this kind, whose body has so many bytes. Want of memory changes
/// nothing.
pub fn put_head(to: &mut Piece, kind: SectionKind, size: u64) -> Result<(), SectionError>
    ensures ok { OnOk result (to.new ≡ to.old ++ head_bytes kind size) }
    ensures err { OnErr result (to.new ≡ to.old) }
    ensures only_memory { IsOkUnless result SectionError.Memory }
{
    to.append(&head_of(kind, size), &[])
}

/// Writes the head of a section of this kind over 16 bytes from a place on, in place: what stands
/// behind them is its body.
pub(crate) fn set_head_at(piece: &mut Piece, start: usize, kind: SectionKind)
    requires { start + 16 ≤ length piece.old }
    ensures { piece.new ≡ take start piece.old ++ section kind (drop (start + 16) piece.old) }
{
    let size = piece.bytes().len() - start - HEAD_SIZE;
    piece.overwrite(start, &head_of(kind, size as u64));
}

/// Writes the head of a section of this kind over the first 16 bytes, in place: what stands behind
/// them is the section's body. It takes no memory.
pub fn set_head(piece: &mut Piece, kind: SectionKind)
    requires { 16 ≤ length piece.old }
    ensures { piece.new ≡ section kind (drop 16 piece.old) }
{
    set_head_at(piece, 0, kind);
}

/// Appends a section of this kind with this body. Want of memory changes nothing.
#[tactic(auto, unfolding(crate::specs::Section::section))]
pub(crate) fn put_section(
    to: &mut Piece,
    kind: SectionKind,
    body: &[u8],
) -> Result<(), SectionError>
    ensures ok { OnOk result (to.new ≡ to.old ++ section kind body.now) }
    ensures err { OnErr result (to.new ≡ to.old) }
    ensures only_memory { IsOkUnless result SectionError.Memory }
{
    to.append(&head_of(kind, body.len() as u64), body)
}
