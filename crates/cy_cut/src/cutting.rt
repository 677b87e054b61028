// Reads the sections of a record's file, one after another, from a store.
ghost use Rattle.std.specs.Prelude.{◌≡◌, ◌≢◌, ◌≤◌, ◌<◌, ◌+◌, ◌++◌, ◌∷◌, [], ◌^◌, length, IfOk};
ghost use Rattle.std.specs.Prelude.{OnOk, IsOkUnless};
ghost use Rattle.cy_store.specs.Files.{Holds};
ghost use Rattle.cy_cut.specs.Sections.{longest_file, header_end};
ghost use Rattle.cy_cut.specs.private.Finding.{head_found, misfit, judged_head, Fits, IsAt};
ghost use Rattle.cy_cut.specs.private.Finding.{BodyAnswer, FoundAnswer, listed};
ghost use Rattle.cy_cut.specs.Cutting.{is_kept, CutAnswer};
ghost use Rattle.cy_cut.specs.private.Window.{IsRead};

use crate::heads::{KeptIndex, PlacedHead};
use crate::sections::LONGEST_SECTION;
use crate::window::{Window, read_behind};
use byteorder::{ByteOrder, LittleEndian};
use cy_msg::Bytes;
use cy_section::{
    HEAD_SIZE, HEADER_SIZE, Head, SectionError, SectionKind, read_chunk_header, read_head,
};
use cy_store::{Store, StoreError};
use std::alloc::Global;

// The longest body that is read with those behind it, in bytes.
const SMALL_BODY: usize = 16_384;

/// A section that was read, and says something: its kind, the place of its body in the file, and
/// the body.
#[derive(Drop)]
pub struct Part {
    pub kind: SectionKind,
    pub body_at: u64,
    pub body: Bytes,
}

// What is found at a place of a file: a section, of which only the head is kept where it says
// nothing, or that the sections end there, at the file's end, at the index or by a fault.
#[derive(Drop)]
pub(crate) enum Found {
    Section(PlacedHead, Option<Part>),
    Last(Result<Option<KeptIndex>, SectionError>),
}

/// The heads of a file's sections, those sections that say something, and how and where they end:
/// at the file's end, at the index, or by a fault.
#[derive(Drop)]
pub struct CutFile {
    pub heads: Vec<PlacedHead>,
    pub parts: Vec<Part>,
    pub end: Result<Option<KeptIndex>, SectionError>,
    pub ends_at: u64,
}

// The head in these bytes, which stand at a place: fewer than 16 are cut, and a second header is a
// wrong kind, whatever its size.
#[tactic(auto, unfolding(crate::specs::private::Finding::head_found))]
fn head_in(bytes: &[u8], at: u64) -> Result<Head, SectionError>
    ensures head { result ≡ head_found at bytes.now }
    ensures long { IfOk result (λ _. 16 ≤ length bytes.now) }
{
    if bytes.len() < HEAD_SIZE {
        return Err(SectionError::Cut { at });
    }
    if LittleEndian::read_u32(bytes) == 0 {
        return Err(SectionError::Kind { at, value: 0 });
    }
    read_head(bytes, at)
}

// Why a section of this head doesn't stand whole in a file of this size. An index always does.
fn misfit(at: u64, size: u64, head: Head) -> Option<SectionError>
    requires { at + 16 ≤ size }
    ensures { result ≡ misfit at size head.kind head.size }
{
    if matches!(head.kind, SectionKind::Index) {
        return None;
    }
    if head.size > LONGEST_SECTION {
        let value = head.size;
        return Some(SectionError::TooLong { at, value });
    }
    if size - at - (HEAD_SIZE as u64) < head.size {
        return Some(SectionError::Cut { at });
    }
    None
}

// The head of a section that stands whole in a file of this size. It is judged where no memory can
// be asked for: what a head says is only believed behind this.
#[tactic(auto, unfolding(crate::specs::private::Finding::judged_head))]
fn judged_head(bytes: &[u8], at: u64, size: u64) -> Result<Head, SectionError>
    requires { at + length bytes.now ≤ size }
    ensures head { result ≡ judged_head at size bytes.now }
    ensures fits { IfOk result (λ h. Fits at size h) }
{
    let head = head_in(bytes, at)?;
    match misfit(at, size, head) {
        Some(fault) => Err(fault),
        None => Ok(head),
    }
}

// Whether a section says something: the header of a chunk only where it is faulty, and a chunk
// where it has messages.
fn is_kept(kind: SectionKind, body_at: u64, body: &[u8]) -> bool
    requires { body_at + length body.now < 2 ^ 64 }
    ensures { result ≡ is_kept (record { kind = kind; body_at = body_at; body = body.now }) }
{
    match kind {
        SectionKind::ChunkHeader => read_chunk_header(body, body_at).is_err(),
        SectionKind::ChunkBody => !body.is_empty(),
        SectionKind::Header | SectionKind::Index | SectionKind::Channel => true,
    }
}

// The section of a head, of whose body the file had these bytes. A file that became shorter ends
// there.
fn section_with(at: u64, head: Head, body: Vec<u8>, size: u64) -> Found
    requires fits { Fits at size head × (size ≤ longest_file) }
    requires other { head.kind ≢ SectionKind.Index }
    requires within { length body.items ≤ head.size }
    ensures { BodyAnswer at size head body.items result }
{
    let body_at = at + HEAD_SIZE as u64;
    if (body.len() as u64) < head.size {
        drop(body);
        return Found::Last(Err(SectionError::Cut { at }));
    }
    let Head { kind, size: long } = head;
    let placed = PlacedHead {
        at,
        kind,
        size: long,
    };
    if !is_kept(kind, body_at, &body) {
        drop(body);
        return Found::Section(placed, None);
    }
    let body = Bytes::from_vec(body);
    Found::Section(
        placed,
        Some(Part {
            kind,
            body_at,
            body,
        }),
    )
}

// The same, where the bytes stand in a window: what says nothing is not copied.
fn section_in(
    alloc: Global,
    at: u64,
    head: Head,
    body: &[u8],
    size: u64,
) -> Result<Found, StoreError>
    requires fits { Fits at size head × (size ≤ longest_file) }
    requires other { head.kind ≢ SectionKind.Index }
    requires within { length body.now ≤ head.size }
    ensures found { IfOk result (BodyAnswer at size head body.now) }
    ensures only_memory { IsOkUnless result StoreError.Memory }
{
    let body_at = at + HEAD_SIZE as u64;
    if body.len() as u64 == head.size && !is_kept(head.kind, body_at, body) {
        let Head { kind, size } = head;
        return Ok(Found::Section(PlacedHead { at, kind, size }, None));
    }
    let bytes = body.to_vec(alloc)?;
    Ok(section_with(at, head, bytes, size))
}

// A section with a small body, which is read with those behind it.
fn small_section<S: Store>(
    alloc: Global,
    store: &mut S,
    name: &str,
    at: u64,
    size: u64,
    head: Head,
    window: &mut Window,
) -> Result<Found, StoreError>
    requires fits { Fits at size head × (size ≤ longest_file) }
    requires other { head.kind ≢ SectionKind.Index }
    requires there { Holds (S.shows store.old).files name.now (IsAt at size head window.old) }
    ensures { FoundAnswer (S.shows store.old) (S.shows store.new) name.now at size window.new
        result }
{
    let body_at = at + HEAD_SIZE as u64;
    let long = head.size as usize;
    window.reach(alloc, store, name, body_at, size, long)?;
    section_in(alloc, at, head, window.front(body_at, long), size)
}

// A section with a large body, which is read by itself, into memory of its own.
fn large_section<S: Store>(
    alloc: Global,
    store: &mut S,
    name: &str,
    at: u64,
    size: u64,
    head: Head,
    window: &mut Window,
) -> Result<Found, StoreError>
    requires fits { Fits at size head × (size ≤ longest_file) }
    requires other { head.kind ≢ SectionKind.Index }
    requires there { Holds (S.shows store.old).files name.now (IsAt at size head window.old) }
    ensures { FoundAnswer (S.shows store.old) (S.shows store.new) name.now at size window.new
        result }
{
    let body_at = at + HEAD_SIZE as u64;
    let long = head.size as usize;
    let front = window.front(body_at, long);
    let body = read_behind(alloc, store, name, body_at, front, long)?;
    window.forget();
    Ok(section_with(at, head, body, size))
}

// The section of a head.
fn section_under<S: Store>(
    alloc: Global,
    store: &mut S,
    name: &str,
    at: u64,
    size: u64,
    head: Head,
    window: &mut Window,
) -> Result<Found, StoreError>
    requires fits { Fits at size head × (size ≤ longest_file) }
    requires other { head.kind ≢ SectionKind.Index }
    requires there { Holds (S.shows store.old).files name.now (IsAt at size head window.old) }
    ensures { FoundAnswer (S.shows store.old) (S.shows store.new) name.now at size window.new
        result }
{
    if head.size as usize <= SMALL_BODY {
        return small_section(alloc, store, name, at, size, head, window);
    }
    large_section(alloc, store, name, at, size, head, window)
}

// The index of a head: what the file has of its body.
fn index_under<S: Store>(
    alloc: Global,
    store: &mut S,
    name: &str,
    at: u64,
    size: u64,
    head: Head,
    window: &Window,
) -> Result<Found, StoreError>
    requires fits { Fits at size head × (size ≤ longest_file) }
    requires index { head.kind ≡ SectionKind.Index }
    requires there { Holds (S.shows store.old).files name.now (IsAt at size head window.now) }
    ensures { FoundAnswer (S.shows store.old) (S.shows store.new) name.now at size window.now
        result }
{
    let body_at = at + HEAD_SIZE as u64;
    let held = head.size.min(size - body_at) as usize;
    let front = window.front(body_at, held);
    let body = read_behind(alloc, store, name, body_at, front, held)?;
    Ok(Found::Last(Ok(Some(KeptIndex {
        at,
        size: head.size,
        body: Bytes::from_vec(body),
    }))))
}

// What stands under a head.
fn found_under<S: Store>(
    alloc: Global,
    store: &mut S,
    name: &str,
    at: u64,
    size: u64,
    head: Head,
    window: &mut Window,
) -> Result<Found, StoreError>
    requires fits { Fits at size head × (size ≤ longest_file) }
    requires there { Holds (S.shows store.old).files name.now (IsAt at size head window.old) }
    ensures { FoundAnswer (S.shows store.old) (S.shows store.new) name.now at size window.new
        result }
{
    match head.kind {
        SectionKind::Index => index_under(alloc, store, name, at, size, head, window),
        _ => section_under(alloc, store, name, at, size, head, window),
    }
}

// What stands at a place of a file of this size.
fn found_at<S: Store>(
    alloc: Global,
    store: &mut S,
    name: &str,
    at: u64,
    size: u64,
    window: &mut Window,
) -> Result<Found, StoreError>
    requires inside { (at ≤ size) × (size ≤ longest_file) }
    requires there { Holds (S.shows store.old).files name.now (λ file. (size ≡ length file)
        × IsRead file window.old) }
    ensures { FoundAnswer (S.shows store.old) (S.shows store.new) name.now at size window.new
        result }
{
    if at == size {
        return Ok(Found::Last(Ok(None)));
    }
    let long = (size - at).min(HEAD_SIZE as u64) as usize;
    window.reach(alloc, store, name, at, size, long)?;
    match judged_head(window.front(at, long), at, size) {
        Ok(head) => found_under(alloc, store, name, at, size, head, window),
        Err(fault) => Ok(Found::Last(Err(fault))),
    }
}

// Keeps the head of a section, and the section where it says something.
fn keep(
    heads: &mut Vec<PlacedHead>,
    parts: &mut Vec<Part>,
    head: PlacedHead,
    part: Option<Part>,
) -> Result<(), StoreError>
    ensures heads { OnOk result (heads.new.items ≡ heads.old.items ++ head ∷ []) }
    ensures parts { OnOk result (parts.new.items ≡ parts.old.items ++ listed part) }
    ensures only_memory { IsOkUnless result StoreError.Memory }
{
    heads.push(head)?;
    match part {
        Some(part) => {
            parts.push(part)?;
            Ok(())
        }
        None => Ok(()),
    }
}

/// The sections behind the header of a file of this size, whose heads are kept behind these. Small
/// sections are read many at a time, and longer bodies in pieces of at most 1,048,576 bytes. Each
/// byte is read once. At most 65,536 bytes are read ahead of a section.
pub fn cut_file<S: Store>(
    alloc: Global,
    store: &mut S,
    name: &str,
    size: u64,
    first: &[PlacedHead],
) -> Result<CutFile, StoreError>
    requires inside { (header_end ≤ size) × (size ≤ longest_file) }
    requires there { Holds (S.shows store.old).files name.now (λ file. size ≡ length file) }
    ensures { CutAnswer (S.shows store.old) (S.shows store.new) name.now first.now result }
{
    let mut heads = first.to_vec(alloc)?;
    let mut parts = Vec::new(alloc);
    let mut window = Window::new(alloc);
    let mut at = HEADER_SIZE as u64;
    loop {
        match found_at(alloc, store, name, at, size, &mut window)? {
            Found::Section(head, part) => {
                at += HEAD_SIZE as u64 + head.size;
                keep(&mut heads, &mut parts, head, part)?;
            }
            Found::Last(end) => {
                drop(window);
                return Ok(CutFile {
                    heads,
                    parts,
                    end,
                    ends_at: at,
                });
            }
        }
    }
}
