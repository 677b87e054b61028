// Keeps the chunks' bodies, the channels and the messages of sections that were read.
ghost use Rattle.std.specs.Prelude.{◌≡◌, ◌≢◌, ◌≤◌, ◌+◌, ◌++◌, ◌∷◌, [], All, length, map, IfOk};
ghost use Rattle.std.specs.Prelude.{IfErr, IfSome, OnOk, None};
ghost use Rattle.std.specs.Vec.Iter.{into_iter_items};
ghost use Rattle.cy_msg.specs.Answer.{AnswersOr};
ghost use Rattle.cy_wire.specs.Field.{fields_of};
ghost use Rattle.cy_section.specs.Reading.{messages_of};
ghost use Rattle.cy_reader.specs.Record.{add_body, add_section, add_sections, nothing};
ghost use Rattle.cy_cut.specs.Sections.{longest_file};
ghost use Rattle.cy_reader.specs.private.Alone.{IsAlone, AreDecoded};
ghost use Rattle.cy_cut.specs.Cutting.{bytes_of, seen_part};
ghost use Rattle.cy_cut.specs.Found.{seen_section};
ghost use Rattle.cy_reader.specs.private.Loading.{HasRoom, GrowsBy, IsSound, Leads, met_of};

use crate::LoadError;
use crate::decoding::{Alone, bytes_in, decode};
use crate::joining::add_alone;
use crate::loading::{Body, Loading, Message, add_body, add_plain};
use cy_cut::{Part, SectionView};
use cy_msg::Bytes;
use cy_section::SectionKind;
use std::alloc::{AllocError, Global};
use std::thread::Threads;
use std::vec::IntoIter;

// A group of sections that are decoded side by side ends once it has so many and so many bytes:
// work enough for all threads, and little beside what a large file has. However few bytes it has,
// it ends once it has very many sections. What is known of its bodies by themselves is in memory
// until they are joined.
const GROUP_SECTIONS: usize = 64;

const GROUP_BYTES: usize = 8_388_608;

const MOST_IN_GROUP: usize = 4_096;

// Whether a group of so many sections and bytes ends.
fn is_group(sections: usize, bytes: usize) -> bool {
    sections >= MOST_IN_GROUP || (sections >= GROUP_SECTIONS && bytes >= GROUP_BYTES)
}

// A section, where its bytes lie in memory.
fn view_of(part: &Part) -> SectionView<'_>
    requires { part.now.body_at ≤ longest_file }
    ensures { seen_section result ≡ seen_part part.now }
{
    SectionView {
        kind: part.kind,
        body_at: part.body_at as usize,
        body: part.body.as_slice(),
    }
}

// Keeps the messages of a chunk, whose body is to be kept behind others.
pub(crate) fn add_chunk(
    alloc: Global,
    before: &[Bytes],
    loading: &mut Loading,
    part: &Part,
) -> Result<(), LoadError>
    requires sound { IsSound (length before.now) loading.old }
    requires room { HasRoom (length before.now) loading.old (length part.now.body) }
    requires within { part.now.body_at + length part.now.body ≤ longest_file }
    ensures met { let all = messages_of (fields_of part.now.body_at part.now.body) in
        Leads result (met_of (before.now ++ part.now.body ∷ []) loading.new)
        (add_body all.fault all.messages (met_of before.now loading.old)) }
    ensures still_sound { OnOk result (IsSound (length before.now + 1) loading.new) }
    ensures not_store { IfErr result (λ e. e ≢ LoadError.Store) }
{
    let bytes = part.body.as_slice();
    let at = part.body_at;
    let body = Body { before, at, bytes };
    add_body(alloc, &body, loading, &view_of(part))
}

// The same, where it may be known what is met in the body by itself.
fn add_decoded(
    alloc: Global,
    before: &[Bytes],
    loading: &mut Loading,
    part: &Part,
    alone: Option<Alone>,
) -> Result<(), LoadError>
    requires sound { IsSound (length before.now) loading.old }
    requires room { HasRoom (length before.now) loading.old (length part.now.body) }
    requires within { part.now.body_at + length part.now.body ≤ longest_file }
    requires alone { IfSome alone (IsAlone part.now) }
    ensures met { let all = messages_of (fields_of part.now.body_at part.now.body) in
        Leads result (met_of (before.now ++ part.now.body ∷ []) loading.new)
        (add_body all.fault all.messages (met_of before.now loading.old)) }
    ensures still_sound { OnOk result (IsSound (length before.now + 1) loading.new) }
    ensures not_store { IfErr result (λ e. e ≢ LoadError.Store) }
{
    match alone {
        Some(alone) => {
            let met = add_alone(alloc, before.len() as u32, loading, &alone);
            drop(alone);
            met
        }
        None => add_chunk(alloc, before, loading, part),
    }
}

// Keeps a chunk: its body and its messages.
fn keep_chunk(
    alloc: Global,
    bodies: &mut Vec<Bytes>,
    loading: &mut Loading,
    part: Part,
    alone: Option<Alone>,
) -> Result<(), LoadError>
    requires sound { IsSound (length bodies.old.items) loading.old }
    requires room { HasRoom (length bodies.old.items) loading.old (length part.body) }
    requires within { part.body_at + length part.body ≤ longest_file }
    requires alone { IfSome alone (IsAlone part) }
    ensures met { let all = messages_of (fields_of part.body_at part.body) in
        Leads result (met_of bodies.new.items loading.new)
        (add_body all.fault all.messages (met_of bodies.old.items loading.old)) }
    ensures still_sound { OnOk result (IsSound (length bodies.new.items) loading.new) }
    ensures bodies { OnOk result (length bodies.new.items ≤ length bodies.old.items + 1) }
    ensures not_store { IfErr result (λ e. e ≢ LoadError.Store) }
{
    add_decoded(alloc, bodies.as_slice(), loading, &part, alone)?;
    bodies.push(part.body)?;
    Ok(())
}

// Keeps what a section has. Of a chunk it may be known what is met in its body by itself.
fn add_part(
    alloc: Global,
    bodies: &mut Vec<Bytes>,
    loading: &mut Loading,
    part: Part,
    alone: Option<Alone>,
) -> Result<(), LoadError>
    requires sound { IsSound (length bodies.old.items) loading.old }
    requires room { HasRoom (length bodies.old.items) loading.old (length part.body) }
    requires within { part.body_at + length part.body ≤ longest_file }
    requires alone { IfSome alone (IsAlone part) }
    ensures met { Leads result (met_of bodies.new.items loading.new)
        (add_section (seen_part part) (met_of bodies.old.items loading.old)) }
    ensures still_sound { OnOk result (IsSound (length bodies.new.items) loading.new) }
    ensures bodies { OnOk result (length bodies.new.items ≤ length bodies.old.items + 1) }
    ensures not_store { IfErr result (λ e. e ≢ LoadError.Store) }
{
    match part.kind {
        SectionKind::ChunkBody => keep_chunk(alloc, bodies, loading, part, alone),
        _ => {
            drop(alone);
            add_plain(alloc, &mut loading.channels, &view_of(&part))
        }
    }
}

// Keeps what sections have, one after another, behind what was met before: the first fault or limit
// in the order of the file is answered. Of some bodies it is known what is met in them by
// themselves.
fn join(
    alloc: Global,
    bodies: &mut Vec<Bytes>,
    loading: &mut Loading,
    parts: Vec<Part>,
    decoded: Vec<Option<Alone>>,
) -> Result<(), LoadError>
    requires sound { IsSound (length bodies.old.items) loading.old }
    requires room { HasRoom (length bodies.old.items) loading.old (bytes_of parts.items) }
    requires within { All (λ p. p.body_at + length p.body ≤ longest_file) parts.items }
    requires decoded { AreDecoded parts.items decoded.items }
    ensures met { Leads result (met_of bodies.new.items loading.new)
        (add_sections (map seen_part parts.items) None (met_of bodies.old.items loading.old)) }
    ensures still_sound { OnOk result (IsSound (length bodies.new.items) loading.new) }
    ensures grown { OnOk result (GrowsBy (bytes_of parts.items) (length bodies.old.items)
        (length bodies.new.items) loading.old loading.new) }
    ensures not_store { IfErr result (λ e. e ≢ LoadError.Store) }
{
    let mut each = decoded.into_iter();
    for part in parts {
        add_part(alloc, bodies, loading, part, each.next().flatten())?;
    }
    Ok(())
}

// The same, where the bodies are decoded side by side before.
fn add_group<R: Threads + Sync>(
    rt: &R,
    alloc: Global,
    bodies: &mut Vec<Bytes>,
    loading: &mut Loading,
    parts: Vec<Part>,
) -> Result<(), LoadError>
    requires sound { IsSound (length bodies.old.items) loading.old }
    requires room { HasRoom (length bodies.old.items) loading.old (bytes_of parts.items) }
    requires within { All (λ p. p.body_at + length p.body ≤ longest_file) parts.items }
    ensures met { Leads result (met_of bodies.new.items loading.new)
        (add_sections (map seen_part parts.items) None (met_of bodies.old.items loading.old)) }
    ensures still_sound { OnOk result (IsSound (length bodies.new.items) loading.new) }
    ensures grown { OnOk result (GrowsBy (bytes_of parts.items) (length bodies.old.items)
        (length bodies.new.items) loading.old loading.new) }
    ensures not_store { IfErr result (λ e. e ≢ LoadError.Store) }
{
    let decoded = decode(rt, alloc, parts.as_slice())?;
    join(alloc, bodies, loading, parts, decoded)
}

// The next group of sections of those that are left, in their order. It is empty where none is.
fn next_group(alloc: Global, left: &mut IntoIter<Part>) -> Result<Vec<Part>, AllocError>
    ensures next { IfOk result (λ g. into_iter_items left.old
        ≡ g.items ++ into_iter_items left.new) }
    ensures none { IfOk result (λ g. length g.items ≡ 0 → into_iter_items left.new ≡ []) }
{
    let mut group = Vec::new(alloc);
    let mut bytes = 0_usize;
    while let Some(part) = left.next() {
        bytes = bytes.saturating_add(part.body.as_slice().len());
        group.push(part)?;
        if is_group(group.len(), bytes) {
            return Ok(group);
        }
    }
    Ok(group)
}

// Makes room for the messages that are to be expected of the bytes that are left, by those that so
// many bytes gave, and for some more, so that they are seldom moved. Where there is no room they
// are kept as they come.
fn expect_more(messages: &mut Vec<Message>, done: usize, left: usize)
    ensures { messages.new.items ≡ messages.old.items }
{
    let more = messages.len().saturating_mul(left) / done.max(1);
    if messages.capacity().saturating_sub(messages.len()) < more {
        let _ = messages.reserve_exact(more.saturating_add(more / 8));
    }
}

// The chunks' bodies, and what is met in sections. Those of a group are decoded side by side, and
// then kept, before the next group is looked at.
pub(crate) fn add_parts<R: Threads + Sync>(
    rt: &R,
    alloc: Global,
    parts: Vec<Part>,
) -> Result<(Vec<Bytes>, Loading), LoadError>
    requires within { All (λ p. p.body_at + length p.body ≤ longest_file) parts.items }
    requires all { bytes_of parts.items ≤ longest_file }
    ensures met { AnswersOr LoadError.Memory (λ k. met_of k.0.items k.1) result
        (add_sections (map seen_part parts.items) None nothing) }
    ensures sound { IfOk result (λ k. IsSound (length k.0.items) k.1) }
    ensures not_store { IfErr result (λ e. e ≢ LoadError.Store) }
{
    let all = bytes_in(&parts);
    let mut done = 0_usize;
    let mut bodies = Vec::new(alloc);
    let mut loading = Loading::none(alloc);
    let mut left = parts.into_iter();
    loop {
        let group = next_group(alloc, &mut left)?;
        if group.is_empty() {
            drop(left);
            return Ok((bodies, loading));
        }
        done = done.saturating_add(bytes_in(&group));
        add_group(rt, alloc, &mut bodies, &mut loading, group)?;
        expect_more(&mut loading.messages, done, all.saturating_sub(done));
    }
}
