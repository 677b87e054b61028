// Reads the sections of a few numbers and texts: the header, a chunk's header, a channel.
ghost use Rattle.std.specs.Prelude.{◌≡◌, ◌+◌, ◌%◌, ◌<◌, ◌^◌, length, unwrap_or};
ghost use Rattle.std.specs.Prelude.{IfOk, IsOkUnless, []};
ghost use Rattle.cy_msg.specs.Answer.{Answers, AnswersOr};
ghost use Rattle.cy_wire.specs.Field.{fields_of, seen};
ghost use Rattle.cy_wire.specs.Message.{seen_span, span_in};
ghost use Rattle.cy_section.specs.Reading.{ReadsNumbers, KeepsNumber, text_of};
ghost use Rattle.cy_section.specs.Reading.{header_at, chunk_header_at, channel_at};
ghost use Rattle.cy_section.specs.Reading.{channel_of, channel_in};
ghost use Rattle.cy_section.specs.Reading.{made_of};
ghost use Rattle.cy_section.specs.private.Channels.{seen_channel};

use crate::{Channel, ChunkHeader, Header, SectionError};
use cy_msg::{Bytes, Text};
use cy_wire::{Field, Reader, Span};
use std::alloc::Global;

/// One more than the greatest field number that a message of numbers may have.
const NUMBERS: usize = 32;

// Keeps the number of a field, which is the last one so far with its field number.
fn keep_number(numbers: &mut [u64; NUMBERS], field: &Field<'_>)
    ensures { KeepsNumber numbers.old numbers.new (seen field.now) }
{
    let Some(value) = field.varint(field.number) else {
        return;
    };
    let number = field.number as usize;
    if number < NUMBERS {
        numbers[number] = value;
    }
}

// The last number of each field below 32, by the field's number: 0 where there is none.
pub(crate) fn numbers_of(body: &[u8], at: u64) -> Result<[u64; NUMBERS], SectionError>
    requires { at + length body.now < 2 ^ 64 }
    ensures { ReadsNumbers result (fields_of at body.now) }
{
    let mut reader = Reader::new(body, at);
    let mut numbers = [0; NUMBERS];
    while let Some(field) = reader.next_field()? {
        keep_number(&mut numbers, &field);
    }
    Ok(numbers)
}

// The low 32 bits of a number.
pub(crate) fn low_32(number: u64) -> u32
    ensures { result ≡ number % 2 ^ 32 }
{
    (number % (1 << 32)) as u32
}

/// The header whose body stands at a place of the file. It takes no memory.
#[tactic(auto, unfolding(crate::specs::Reading::header_at))]
pub fn read_header(body: &[u8], at: u64) -> Result<Header, SectionError>
    requires { at + length body.now < 2 ^ 64 }
    ensures { result ≡ header_at at body.now }
{
    let numbers = numbers_of(body, at)?;
    Ok(Header {
        major_version: low_32(numbers[1]),
        minor_version: low_32(numbers[2]),
        compress: low_32(numbers[3]),
        chunk_interval: numbers[4],
        segment_interval: numbers[5],
        index_position: numbers[6],
        chunk_number: numbers[7],
        channel_number: numbers[8],
        begin_time: numbers[9],
        end_time: numbers[10],
        message_number: numbers[11],
        size: numbers[12],
        is_complete: numbers[13] != 0,
        chunk_raw_size: numbers[14],
        segment_raw_size: numbers[15],
    })
}

/// The header of a chunk whose body stands at a place of the file. It takes no memory.
#[tactic(auto, unfolding(crate::specs::Reading::chunk_header_at))]
pub fn read_chunk_header(body: &[u8], at: u64) -> Result<ChunkHeader, SectionError>
    requires { at + length body.now < 2 ^ 64 }
    ensures { result ≡ chunk_header_at at body.now }
{
    let numbers = numbers_of(body, at)?;
    Ok(ChunkHeader {
        begin_time: numbers[1],
        end_time: numbers[2],
        message_number: numbers[3],
        raw_size: numbers[4],
    })
}

// The text of some bytes.
#[tactic(auto, unfolding(crate::specs::Reading::text_of), using(crate::proofs::Texts::texts))]
pub(crate) fn text_of<'a>(span: Span<'a>) -> Result<&'a str, SectionError>
    ensures { Answers (λ text. text.now) result (text_of (seen_span span.entry)) }
{
    match std::str::from_utf8(span.bytes) {
        Ok(text) => Ok(text),
        Err(_) => Err(SectionError::NameNotText { at: span.start }),
    }
}

// The texts of a channel, where they stand.
#[derive(Clone, Copy)]
pub(crate) struct ChannelView<'a> {
    pub name: &'a str,
    pub message_type: &'a str,
    pub proto_desc: &'a [u8],
}

// The bytes that a missing field stands for.
pub(crate) fn no_bytes<'a>() -> Span<'a>
    ensures { seen_span result ≡ record { start = 0; bytes = [] } }
{
    Span {
        start: 0,
        bytes: &[],
    }
}

// The channel of these texts and bytes.
fn view_of<'a>(
    name: Span<'a>,
    message_type: Span<'a>,
    proto_desc: Span<'a>,
) -> Result<ChannelView<'a>, SectionError>
    ensures { Answers seen_channel result (channel_of (seen_span name.entry)
        (seen_span message_type.entry) (seen_span proto_desc.entry)) }
{
    let name = text_of(name)?;
    let message_type = text_of(message_type)?;
    Ok(ChannelView {
        name,
        message_type,
        proto_desc: proto_desc.bytes,
    })
}

// The bytes of a field, where it has this number, in place of those before it.
fn newer<'a>(field: &Field<'a>, number: u32, before: Span<'a>) -> Span<'a>
    ensures { seen_span result
        ≡ unwrap_or (span_in number (seen field.now)) (seen_span before.entry) }
{
    match field.span(number) {
        Some(span) => span,
        None => before,
    }
}

// The fields of a channel, of each the last one that was read so far.
#[derive(Clone, Copy)]
struct Parts<'a> {
    name: Span<'a>,
    message_type: Span<'a>,
    proto_desc: Span<'a>,
}

// The channel in some bytes, whose fields begin with a number.
#[tactic(auto, unfolding(crate::specs::Reading::channel_in))]
pub(crate) fn channel_of<'a>(message: Span<'a>, first: u32) -> Result<ChannelView<'a>, SectionError>
    requires { first < 100 }
    ensures { Answers seen_channel result (made_of (channel_in first)
        (fields_of message.entry.start message.entry.bytes.now)) }
{
    let mut fields = Reader::new(message.bytes, message.start);
    let mut parts = Parts {
        name: no_bytes(),
        message_type: no_bytes(),
        proto_desc: no_bytes(),
    };
    while let Some(field) = fields.next_field()? {
        parts = Parts {
            name: newer(&field, first, parts.name),
            message_type: newer(&field, first + 1, parts.message_type),
            proto_desc: newer(&field, first + 2, parts.proto_desc),
        };
    }
    view_of(parts.name, parts.message_type, parts.proto_desc)
}

// A copy of a text, and of bytes.
pub(crate) fn text_copy(alloc: Global, text: &str) -> Result<Text, SectionError>
    ensures copy { IfOk result (λ t. t ≡ text.now) }
    ensures only_memory { IsOkUnless result SectionError.Memory }
{
    Ok(Text::from_string(String::from_str(alloc, text)?))
}

pub(crate) fn bytes_copy(alloc: Global, bytes: &[u8]) -> Result<Bytes, SectionError>
    ensures copy { IfOk result (λ t. t ≡ bytes.now) }
    ensures only_memory { IsOkUnless result SectionError.Memory }
{
    Ok(Bytes::from_vec(bytes.to_vec(alloc)?))
}

// A channel in memory of its own.
pub(crate) fn owned(alloc: Global, channel: &ChannelView<'_>) -> Result<Channel, SectionError>
    ensures copy { IfOk result (λ c. c ≡ seen_channel channel.now) }
    ensures only_memory { IsOkUnless result SectionError.Memory }
{
    Ok(Channel {
        name: text_copy(alloc, channel.name)?,
        message_type: text_copy(alloc, channel.message_type)?,
        proto_desc: bytes_copy(alloc, channel.proto_desc)?,
    })
}

/// The channel whose body stands at a place of the file, in memory of its own.
#[tactic(auto, unfolding(crate::specs::Reading::channel_at))]
pub fn read_channel(alloc: Global, body: &[u8], at: u64) -> Result<Channel, SectionError>
    requires { at + length body.now < 2 ^ 64 }
    ensures { AnswersOr SectionError.Memory (λ c. c) result (channel_at at body.now) }
{
    let span = Span {
        start: at,
        bytes: body,
    };
    let channel = channel_of(span, 1)?;
    owned(alloc, &channel)
}
