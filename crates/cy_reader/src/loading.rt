// Reads the channels and messages of a file's sections.
ghost use Rattle.std.specs.Prelude.{◌≡◌, ◌≢◌, ◌≤◌, ◌<◌, ◌^◌, ◌+◌, ◌-◌, ◌++◌, ◌∷◌, [], length};
ghost use Rattle.std.specs.Prelude.{List, IfOk, IfErr, OnOk, IsOkUnless};
ghost use Rattle.cy_msg.specs.Answer.{AnswersOr};
ghost use Rattle.cy_section.specs.Messages.{seen};
ghost use Rattle.cy_reader.specs.Record.{add_message, add_body};
ghost use Rattle.cy_reader.specs.Record.{Message as MessageMet, add_section, add_sections};
ghost use Rattle.cy_reader.specs.Record.{parts_of, nothing};
ghost use Rattle.cy_cut.specs.Sections.{header_end, sections_from};
ghost use Rattle.cy_reader.specs.private.Kept.{IsLoaded};
ghost use Rattle.cy_reader.specs.private.Loading.{IsNothing, IsSound, IsShort, Leads};
ghost use Rattle.cy_reader.specs.private.Loading.{unless_ended, noted};
ghost use Rattle.cy_reader.specs.private.Loading.{AreSmall, IsTied, Grows, met_of, met_with};
ghost use Rattle.cy_reader.specs.private.Loading.{with_body, IsShortSection, IsWithin};
ghost use Rattle.cy_cut.specs.Stands.{Stands};
ghost use Rattle.cy_cut.specs.Found.{seen_section};
ghost use Rattle.cy_wire.specs.Field.{fields_of};
ghost use Rattle.cy_section.specs.Reading.{messages_of};

use crate::LoadError;
use crate::channels::{Channels, give, mention};
use crate::header::file_header;
use cy_cut::{SectionView, section_at};
use cy_msg::Bytes;
use cy_section::{
    HEADER_SIZE, Header, MessageReader, MessageView, SectionKind, read_channel, read_chunk_header,
};
use std::alloc::Global;

/// The longest content of a message, in bytes.
const LONGEST_CONTENT: u64 = 268_435_456;

// What was met so far.
#[derive(Drop)]
pub(crate) struct Loading {
    pub channels: Channels,
    pub messages: Vec<Message>,
}

impl Loading {
    // Nothing.
    pub(crate) fn none(alloc: Global) -> Self
        ensures { IsNothing result }
    {
        Loading {
            channels: Channels::new(alloc),
            messages: Vec::new(alloc),
        }
    }
}

// A message: the number of its channel, its time, and where its content stands: in which of the
// bodies that are kept, and from which of its bytes on.
#[derive(Clone, Copy, Drop)]
pub(crate) struct Message {
    pub channel: u32,
    pub body: u32,
    pub time: u64,
    pub start: u32,
    pub length: u32,
}

// A body that is to be kept behind others, and its place in the file.
#[derive(Clone, Copy)]
pub(crate) struct Body<'a> {
    pub before: &'a [Bytes],
    pub at: u64,
    pub bytes: &'a [u8],
}

// Keeps a message of a body, on a channel of this number.
#[inline(always)]
fn note_message(
    messages: &mut Vec<Message>,
    body: &Body<'_>,
    channel: u32,
    message: &MessageView<'_>,
) -> Result<(), LoadError>
    requires few { length messages.old.items + 1 < 2 ^ 32 }
    requires short { IsShort body.now }
    requires stands { Stands body.now.bytes.now (message.now.content_at - body.now.at)
        message.now.content.now }
    ensures ok { OnOk result (messages.new.items
        ≡ messages.old.items ++ noted body.now channel message.now ∷ []) }
    ensures few { OnOk result (length messages.old.items + 1 < 2 ^ 32) }
    ensures only_memory { IsOkUnless result LoadError.Memory }
{
    messages.push(Message {
        channel,
        body: body.before.len() as u32,
        time: message.time,
        // An absent content has the place 0.
        start: message.content_at.saturating_sub(body.at) as u32,
        length: message.content.len() as u32,
    })?;
    Ok(())
}

// Keeps a message of a body, and the channel that it names.
#[tactic(auto, unfolding(crate::specs::Record::add_message), using(crate::proofs::Sound::sounds))]
#[inline(always)]
fn add_message(
    alloc: Global,
    body: &Body<'_>,
    loading: &mut Loading,
    message: &MessageView<'_>,
) -> Result<(), LoadError>
    requires sound { IsSound (length (with_body body.now)) loading.old }
    requires stands { Stands body.now.bytes.now (message.now.content_at - body.now.at)
        message.now.content.now }
    requires short { IsShort body.now }
    requires few { length loading.old.messages.items + 1 < 2 ^ 32 }
    ensures met { let bodies = with_body body.now in Leads result (met_of bodies loading.new)
        (add_message (seen message.now) (met_of bodies loading.old)) }
    ensures still_sound { OnOk result (IsSound (length (with_body body.now)) loading.new) }
    ensures not_store { IfErr result (λ e. e ≢ LoadError.Store) }
{
    let channel = mention(alloc, &mut loading.channels, message.channel_name)?;
    let count = message.content.len() as u64;
    if count > LONGEST_CONTENT {
        return Err(LoadError::ContentTooLarge { count });
    }
    note_message(&mut loading.messages, body, channel, message)
}

/// Reads the messages of a body that are left, for the fault that may end them.
#[inline(never)]
pub fn read_out(messages: MessageReader<'_>) -> Result<(), LoadError>
    ensures { result ≡ unless_ended messages.entry.fault }
{
    let mut left = messages;
    while let Some(_) = left.next_message()? {}
    Ok(())
}

// Keeps the messages of a chunk, which stand in a body. A fault anywhere in it comes before any
// limit.
#[inline(never)]
pub(crate) fn add_body(
    alloc: Global,
    body: &Body<'_>,
    loading: &mut Loading,
    section: &SectionView<'_>,
) -> Result<(), LoadError>
    requires sound { IsSound (length (with_body body.now)) loading.old }
    requires stands { IsWithin body.now.at body.now.bytes.now section.now.body_at
        section.now.body.now }
    requires short { IsShort body.now }
    requires few { length loading.old.messages.items + length section.now.body.now < 2 ^ 32 }
    ensures met { let bodies = with_body body.now in
        let all = messages_of (fields_of section.now.body_at section.now.body.now) in
        Leads result (met_of bodies loading.new)
        (add_body all.fault all.messages (met_of bodies loading.old)) }
    ensures still_sound { OnOk result (IsSound (length (with_body body.now)) loading.new) }
    ensures not_store { IfErr result (λ e. e ≢ LoadError.Store) }
{
    let mut reader = MessageReader::new(section.body, section.body_at as u64);
    while let Some(message) = reader.next_message()? {
        if let Err(limit) = add_message(alloc, body, loading, &message) {
            read_out(reader)?;
            return Err(limit);
        }
    }
    Ok(())
}

// Keeps what a section has that is no chunk's body.
#[tactic(auto, unfolding(crate::specs::Record::add_section))]
pub(crate) fn add_plain(
    alloc: Global,
    channels: &mut Channels,
    section: &SectionView<'_>,
) -> Result<(), LoadError>
    requires kept { AreSmall channels.old.list.items × IsTied channels.old }
    requires other { section.now.kind ≢ SectionKind.ChunkBody }
    requires short { IsShortSection section.now }
    ensures met { (messages : List MessageMet) → Leads result (met_with channels.new messages)
        (add_section (seen_section section.now) (met_with channels.old messages)) }
    ensures kept { OnOk result (Grows channels.old channels.new) }
    ensures not_store { IfErr result (λ e. e ≢ LoadError.Store) }
{
    let at = section.body_at as u64;
    match section.kind {
        SectionKind::ChunkBody => unreachable!(),
        SectionKind::Header | SectionKind::Index => Ok(()),
        SectionKind::ChunkHeader => {
            read_chunk_header(section.body, at)?;
            Ok(())
        }
        SectionKind::Channel => {
            let channel = read_channel(alloc, section.body, at)?;
            give(alloc, channels, channel)
        }
    }
}

// Keeps what a section has.
#[tactic(auto, unfolding(crate::specs::Record::add_section), using(crate::proofs::Sound::sounds))]
fn add_section(
    alloc: Global,
    body: &Body<'_>,
    loading: &mut Loading,
    section: &SectionView<'_>,
) -> Result<(), LoadError>
    requires sound { IsSound (length (with_body body.now)) loading.old }
    requires stands { IsWithin body.now.at body.now.bytes.now section.now.body_at
        section.now.body.now }
    requires short { IsShort body.now }
    requires few { length loading.old.messages.items + length section.now.body.now < 2 ^ 32 }
    ensures met { let bodies = with_body body.now in Leads result (met_of bodies loading.new)
        (add_section (seen_section section.now) (met_of bodies loading.old)) }
    ensures still_sound { OnOk result (IsSound (length (with_body body.now)) loading.new) }
    ensures not_store { IfErr result (λ e. e ≢ LoadError.Store) }
{
    match section.kind {
        SectionKind::ChunkBody => add_body(alloc, body, loading, section),
        _ => add_plain(alloc, &mut loading.channels, section),
    }
}

// The channels and messages of the sections behind the header.
fn add_sections(alloc: Global, file: &[u8]) -> Result<Loading, LoadError>
    requires long { header_end ≤ length file.now }
    requires short { length file.now < 2 ^ 32 }
    ensures met { let all = sections_from file.now header_end in
        AnswersOr LoadError.Memory (met_of (file.now ∷ [])) result
        (add_sections all.sections all.fault nothing) }
    ensures sound { IfOk result (IsSound 1) }
    ensures not_store { IfErr result (λ e. e ≢ LoadError.Store) }
{
    let mut loading = Loading::none(alloc);
    // The file is the only body.
    let body = Body {
        before: &[],
        at: 0,
        bytes: file,
    };
    let mut at = HEADER_SIZE;
    while let Some(section) = section_at(file, at)? {
        add_section(alloc, &body, &mut loading, &section)?;
        at = section.body_at + section.body.len();
    }
    Ok(loading)
}

// The header of a file, and what is met behind it.
#[tactic(auto, unfolding(crate::specs::Record::parts_of))]
pub(crate) fn parts_of(alloc: Global, file: &[u8]) -> Result<(Header, Loading), LoadError>
    ensures parts { AnswersOr LoadError.Memory (λ x. (x.0, met_of (file.now ∷ []) x.1)) result
        (parts_of file.now) }
    ensures loaded { IfOk result (λ x. IsLoaded file.now x.1) }
    ensures not_store { IfErr result (λ e. e ≢ LoadError.Store) }
{
    let header = file_header(file)?;
    let loading = add_sections(alloc, file)?;
    Ok((header, loading))
}
