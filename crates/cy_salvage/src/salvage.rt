// Reads what stands in a record's file before its first fault.
ghost use Rattle.std.specs.Prelude.{◌≡◌, ◌≢◌, ◌≤◌, ◌+◌, ◌-◌, if◌then◌else◌, length, slice_get, All};
ghost use Rattle.std.specs.Prelude.{true, ◌==◌, ◌&&◌, is_some, is_none, IfOk, IfErr, IfSome};
ghost use Rattle.std.specs.Prelude.{IsOkUnless};
ghost use Rattle.cy_msg.specs.Answer.{Answers, AnswersOr};
ghost use Rattle.cy_reader.specs.Record.{file_header};
ghost use Rattle.cy_cut.specs.Sections.{longest_file};
ghost use Rattle.cy_salvage.specs.Salvage.{own_fault, is_unreadable, if_usable, SalvageAnswer};
ghost use Rattle.cy_cut.specs.Cutting.{seen_part, fault_in, AreWithin};
ghost use Rattle.cy_salvage.specs.private.Salvaging.{AreJudged, AreSound, IsJudged, SizeAnswer};
ghost use Rattle.cy_salvage.specs.private.Salvaging.{cut_salvage, place_before};
ghost use Rattle.cy_section.specs.declared.error.SectionError.{SectionError as SectionFault};
ghost use Rattle.std.specs.Prelude.{Option};

use cy_cut::{CutFile, KeptIndex, Part, cut_file};
use cy_reader::{Kept, LONGEST_FILE, LoadError, Loaded, file_header, least_piece, read_out};
use cy_section::{
    HEAD_SIZE, HEADER_SIZE, MessageReader, SectionError, SectionKind, read_channel,
    read_chunk_header,
};
use cy_store::{Store, read_range};
use rayon::prelude::*;
use std::alloc::{AllocError, Global};
use std::marker::Model;
use std::thread::Threads;

/// What was salvaged of a file: contracts see its channels, its messages, and how many bytes were
/// dropped.
#[derive(Drop)]
pub struct Salvaged {
    kept: Kept,
    dropped: u64,
}

impl Model for Salvaged {
    ghost use Rattle.cy_salvage.specs.Salvage.{Salvage};

    ghost Value = { Salvage };

    ghost view = { λ s. record { met = s.kept; dropped = s.dropped } };
}

impl Salvaged {
    /// The channels and messages.
    pub fn loaded(&self) -> Loaded<'_>
        ensures { result ≡ self.now.met }
    {
        self.kept.loaded()
    }

    /// How many bytes were dropped: those from the section with the fault on.
    pub fn dropped(&self) -> u64
        ensures { result ≡ self.now.dropped }
    {
        self.dropped
    }
}

// Whether a header was refused because its fields can't be read.
fn is_unreadable(error: &LoadError) -> bool
    ensures { result ≡ is_unreadable error.now }
{
    matches!(error, LoadError::Section(SectionError::Wire { .. }))
}

// The length of a file whose first bytes are these, and whose header is usable.
fn size_in(bytes: &[u8], size: u64) -> Result<u64, LoadError>
    ensures usable { Answers (λ _. tt) result (if_usable (file_header bytes.now)) }
    ensures size { IfOk result (λ n. n ≡ size) }
    ensures not_store { IfErr result (λ e. e ≢ LoadError.Store) }
{
    match file_header(bytes) {
        Ok(_) => Ok(size),
        Err(error) => {
            if is_unreadable(&error) {
                Ok(size)
            } else {
                Err(error)
            }
        }
    }
}

// The length of a file whose header is usable.
fn usable_size<S: Store>(alloc: Global, store: &mut S, name: &str) -> Result<u64, LoadError>
    ensures { SizeAnswer (S.shows store.old) (S.shows store.new) name.now result }
{
    let size = store.size(name)?;
    if size > LONGEST_FILE {
        return Err(LoadError::FileTooLarge { count: size });
    }
    let long = size.min(HEADER_SIZE as u64);
    let bytes = read_range(alloc, store, name, 0, long as usize)?;
    size_in(bytes.as_slice(), size)
}

// That an error is a fault, unless there was no memory.
fn is_fault(error: SectionError) -> Result<bool, LoadError>
    ensures fault { IfOk result (λ b. (b ≡ true) × (error ≢ SectionError.Memory)) }
    ensures only_memory { IsOkUnless result LoadError.Memory }
{
    match error {
        SectionError::Memory => Err(LoadError::Memory),
        _ => Ok(true),
    }
}

// Whether the fields of a channel's section are faulty.
fn is_faulty_channel(alloc: Global, part: &Part) -> Result<bool, LoadError>
    requires within { part.now.body_at + length part.now.body ≤ longest_file }
    requires channel { part.now.kind ≡ SectionKind.Channel }
    ensures faulty { IfOk result (λ b. b ≡ is_some (own_fault (seen_part part.now))) }
    ensures only_memory { IsOkUnless result LoadError.Memory }
{
    match read_channel(alloc, part.body.as_slice(), part.body_at) {
        Ok(channel) => {
            drop(channel);
            Ok(false)
        }
        Err(error) => is_fault(error),
    }
}

// Whether the fields of a section are faulty.
#[tactic(auto, unfolding(crate::specs::Salvage::own_fault))]
fn is_faulty(alloc: Global, part: &Part) -> Result<bool, LoadError>
    requires { part.now.body_at + length part.now.body ≤ longest_file }
    ensures faulty { IfOk result (λ b. b ≡ is_some (own_fault (seen_part part.now))) }
    ensures only_memory { IsOkUnless result LoadError.Memory }
{
    let body = part.body.as_slice();
    match part.kind {
        SectionKind::Header | SectionKind::Index => Ok(false),
        SectionKind::ChunkHeader => Ok(read_chunk_header(body, part.body_at).is_err()),
        SectionKind::ChunkBody => Ok(read_out(MessageReader::new(body, part.body_at)).is_err()),
        SectionKind::Channel => is_faulty_channel(alloc, part),
    }
}

// Whether the fields of each section are faulty; none where there was no memory to tell. They are
// looked at side by side.
fn faults_of<R: Threads + Sync>(
    rt: &R,
    alloc: Global,
    parts: &[Part],
) -> Result<Vec<Option<bool>>, AllocError>
    requires { All (λ p. p.body_at + length p.body ≤ longest_file) parts.now }
    ensures { IfOk result (λ v. AreJudged parts.now v.items) }
{
    parts
        .par_iter()
        .with_min_len(least_piece(parts))
        .map(
            |part: &Part| -> Option<bool>
                requires { part.now.body_at + length part.now.body ≤ longest_file }
                ensures { IfSome result (IsJudged part.now) }
            { is_faulty(alloc, part).ok() },
        )
        .collect(rt, alloc)
}

// How many sections stand before the first whose fields are faulty.
fn sound_count<R: Threads + Sync>(rt: &R, alloc: Global, parts: &[Part]) -> Result<usize, LoadError>
    requires { All (λ p. p.body_at + length p.body ≤ longest_file) parts.now }
    ensures sound { IfOk result (λ count. (fault : Option SectionFault)
        → AreSound parts.now count fault) }
    ensures only_memory { IsOkUnless result LoadError.Memory }
{
    let faults = faults_of(rt, alloc, parts)?;
    for (count, told) in faults.iter().enumerate() {
        let faulty = told.ok_or(LoadError::Memory)?;
        if faulty {
            return Ok(count);
        }
    }
    Ok(parts.len())
}

// The place behind the sections before one of those that are kept, or where all end.
fn place_before(parts: &[Part], count: usize, end: u64) -> u64
    ensures { result ≡ place_before end (slice_get parts.now count) }
{
    match parts.get(count) {
        Some(part) => part.body_at.saturating_sub(HEAD_SIZE as u64),
        None => end,
    }
}

// How many bytes of a file of this size are dropped from a place on, unless none are.
fn dropped_from(place: u64, size: u64, are_all: bool) -> u64
    ensures { result ≡ (if are_all then 0 else size - place) }
{
    if are_all {
        return 0;
    }
    size.saturating_sub(place)
}

// Whether sections that end so are all sound.
fn is_whole(count: usize, parts: &[Part], end: &Result<Option<KeptIndex>, SectionError>) -> bool
    ensures { result ≡ ((count == length parts.now) && is_none (fault_in end.now)) }
{
    count == parts.len() && end.is_ok()
}

// What is salvaged of a file of this size that was cut into sections.
#[tactic(auto, unfolding(crate::specs::private::Salvaging::cut_salvage))]
fn salvaged_of<R: Threads + Sync>(
    rt: &R,
    alloc: Global,
    size: u64,
    cut: CutFile,
) -> Result<Salvaged, LoadError>
    requires { AreWithin cut }
    ensures salvaged { AnswersOr LoadError.Memory (λ s. s) result (cut_salvage size cut) }
    ensures not_store { IfErr result (λ e. e ≢ LoadError.Store) }
{
    let CutFile {
        heads,
        mut parts,
        end,
        ends_at,
    } = cut;
    drop(heads);
    let count = sound_count(rt, alloc, &parts)?;
    let are_all = is_whole(count, &parts, &end);
    drop(end);
    let dropped = dropped_from(place_before(&parts, count, ends_at), size, are_all);
    parts.truncate(count);
    let kept = Kept::of_parts(rt, alloc, parts)?;
    Ok(Salvaged { kept, dropped })
}

/// Reads what stands in a record's file before the first fault, section by section as `load` does:
/// the channels and messages of the sections before it. The section with the fault gives nothing.
/// A header whose fields can't be read is accepted. What else refuses a file whole does so here: a
/// front that is no record's, a compression, and the limits.
///
/// It keeps the bodies of the chunks, beside 24 bytes a message.
pub fn salvage_record<S: Store, R: Threads + Sync>(
    rt: &R,
    alloc: Global,
    store: &mut S,
    name: &str,
) -> Result<Salvaged, LoadError>
    ensures { SalvageAnswer (S.shows store.old) (S.shows store.new) name.now result }
{
    let size = usable_size(alloc, store, name)?;
    let cut = cut_file(alloc, store, name, size, &[])?;
    salvaged_of(rt, alloc, size, cut)
}
