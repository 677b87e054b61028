// Finds the heads of a file's sections, and its index.
ghost use Rattle.std.specs.Prelude.{◌≡◌, ◌≤◌, ◌+◌, ◌++◌, length, drop, IfOk, IfSome};
ghost use Rattle.std.specs.Prelude.{OnOk};
ghost use Rattle.std.specs.Option.{option_map};
ghost use Rattle.byteorder.specs.Endian.{little_number};
ghost use Rattle.cy_cut.specs.Found.{seen_section};
ghost use Rattle.cy_cut.specs.Heads.{whole_at, index_at, header_head, whole_heads, heads_of};
ghost use Rattle.cy_cut.specs.Heads.{index_of, index_head, IsPlaced, seen_index};
ghost use Rattle.cy_cut.specs.private.Ends.{EndsThere};
ghost use Rattle.cy_cut.specs.Sections.{header_end};
ghost use Rattle.cy_cut.specs.Stands.{Stands};

use crate::sections::{SectionView, section_at};
use byteorder::{ByteOrder, LittleEndian};
use cy_msg::Bytes;
use cy_section::{HEAD_SIZE, HEADER_SIZE, SectionKind};
use std::alloc::{AllocError, Global};

/// The head of a section: its place in the file, its kind, and the size of its body in bytes.
#[derive(Clone, Copy)]
pub struct PlacedHead {
    pub at: u64,
    pub kind: SectionKind,
    pub size: u64,
}

// The heads of a file's sections without the index, and where the sections end.
#[derive(Drop)]
struct Walk {
    heads: Vec<PlacedHead>,
    end: usize,
}

/// The index of a file: the place of its head, the size that its head has, and its body or what the
/// file has of it.
#[derive(Drop)]
pub struct KeptIndex {
    pub at: u64,
    pub size: u64,
    pub body: Bytes,
}

/// The heads of all sections of a file, and its index.
#[derive(Drop)]
pub struct Heads {
    pub heads: Vec<PlacedHead>,
    pub index: Option<KeptIndex>,
}

// The section that stands whole at a place, none where there is none.
#[tactic(auto, unfolding(crate::specs::Heads::whole_at))]
fn whole_at(file: &[u8], at: usize) -> Option<SectionView<'_>>
    requires { at ≤ length file.now }
    ensures section { option_map seen_section result ≡ whole_at file.now at }
    ensures stands { IfSome result (λ s. (s.body_at ≡ at + 16)
        × Stands file.now s.body_at s.body.now) }
{
    match section_at(file, at) {
        Ok(found) => found,
        Err(_) => None,
    }
}

// The size in the head that stands at a place.
fn size_at(file: &[u8], at: usize) -> u64
    requires { at + 16 ≤ length file.now }
    ensures { result ≡ little_number 8 (drop (at + 8) file.now) }
{
    LittleEndian::read_u64(&file[at + 8..])
}

// Bytes in memory of their own.
fn copy_of(alloc: Global, bytes: &[u8]) -> Result<Bytes, AllocError>
    ensures copy { IfOk result (λ copy. copy ≡ bytes.now) }
{
    Ok(Bytes::from_vec(bytes.to_vec(alloc)?))
}

// The index whose head stands at a place, none where the file ends before its head does.
#[tactic(auto, unfolding(crate::specs::Heads::index_at))]
fn index_at(alloc: Global, file: &[u8], at: usize) -> Result<Option<KeptIndex>, AllocError>
    requires { at ≤ length file.now }
    ensures index { IfOk result (λ found. option_map seen_index found ≡ index_at file.now at) }
    ensures placed { IfOk result (λ found. IfSome found (λ i. (i.at ≡ at) × IsPlaced i)) }
{
    if file.len() - at < HEAD_SIZE {
        return Ok(None);
    }
    let size = size_at(file, at);
    let start = at + HEAD_SIZE;
    let held = ((file.len() - start) as u64).min(size) as usize;
    let body = copy_of(alloc, &file[start..start + held])?;
    Ok(Some(KeptIndex {
        at: at as u64,
        size,
        body,
    }))
}

/// The head of a file's header, which is the first.
#[tactic(auto, unfolding(crate::specs::Heads::header_head))]
pub fn header_head(file: &[u8]) -> PlacedHead
    requires { 16 ≤ length file.now }
    ensures { result ≡ header_head file.now }
{
    PlacedHead {
        at: 0,
        kind: SectionKind::Header,
        size: LittleEndian::read_u64(&file[8..]),
    }
}

// The heads of the header and of the sections behind it.
fn whole_heads(alloc: Global, file: &[u8]) -> Result<Walk, AllocError>
    requires { header_end ≤ length file.now }
    ensures heads { IfOk result (λ w. w.heads.items ≡ whole_heads file.now header_end) }
    ensures ends { IfOk result (λ w. EndsThere file.now w.end) }
{
    let mut heads = Vec::new(alloc);
    heads.push(header_head(file))?;
    let mut at = HEADER_SIZE;
    while let Some(section) = whole_at(file, at) {
        heads.push(PlacedHead {
            at: at as u64,
            kind: section.kind,
            size: section.body.len() as u64,
        })?;
        at = section.body_at + section.body.len();
    }
    Ok(Walk { heads, end: at })
}

/// Adds the head of an index, where there is one.
pub fn push_index(heads: &mut Vec<PlacedHead>, index: Option<&KeptIndex>) -> Result<(), AllocError>
    ensures pushed { OnOk result (heads.new.items
        ≡ heads.old.items ++ index_head (option_map (λ i. seen_index i.now) index.entry)) }
{
    if let Some(index) = index {
        heads.push(PlacedHead {
            at: index.at,
            kind: SectionKind::Index,
            size: index.size,
        })?;
    }
    Ok(())
}

/// The heads of all sections of a file, that of its index included, and the index.
#[tactic(auto, unfolding(crate::specs::Heads::heads_of, crate::specs::Heads::index_of))]
pub fn heads_of(alloc: Global, file: &[u8]) -> Result<Heads, AllocError>
    requires { header_end ≤ length file.now }
    ensures heads { IfOk result (λ h. h.heads.items ≡ heads_of file.now header_end) }
    ensures index { IfOk result (λ h. option_map seen_index h.index
        ≡ index_of file.now header_end) }
    ensures placed { IfOk result (λ h. IfSome h.index IsPlaced) }
{
    let Walk { mut heads, end } = whole_heads(alloc, file)?;
    let index = index_at(alloc, file, end)?;
    push_index(&mut heads, index.as_ref())?;
    Ok(Heads { heads, index })
}
