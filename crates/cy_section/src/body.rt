// Reads the messages of a chunk's body.
ghost use Rattle.std.specs.Prelude.{◌≡◌, ◌+◌, ◌<◌, ◌^◌, length, unwrap_or, IfOk, OnOk, IsOkUnless};
ghost use Rattle.std.specs.Prelude.{◌++◌, ◌∷◌, []};
ghost use Rattle.cy_msg.specs.Answer.{Answers, AnswersOr};
ghost use Rattle.cy_wire.specs.Field.{fields_of, seen as seen_field};
ghost use Rattle.cy_wire.specs.Message.{seen_span, span_in, number_in};
ghost use Rattle.cy_section.specs.Reading.{message_at, messages_of, chunk_body_at};
ghost use Rattle.cy_section.specs.Messages.{seen, TakesMessage};

use crate::read::{bytes_copy, no_bytes, text_copy, text_of};
use crate::{BodyMessage, ChunkBody, SectionError};
use cy_msg::{Bytes, Items, Text};
use cy_wire::{Field, Reader, Span};
use std::alloc::Global;
use std::marker::Model;

/// A message of a chunk's body, where it stands.
#[derive(Clone, Copy)]
pub struct MessageView<'a> {
    pub channel_name: &'a str,
    /// In nanoseconds.
    pub time: u64,
    pub content: &'a [u8],
    /// The place of the content's first byte.
    pub content_at: u64,
}

/// The messages of a chunk's body that are still to be read: contracts see them as a list, and the
/// fault that ends it, if one does.
#[derive(Drop)]
pub struct MessageReader<'a> {
    fields: Reader<'a>,
}

impl<'a> Model for MessageReader<'a> {
    ghost use Rattle.cy_section.specs.Reading.{Messages, messages_of};

    ghost Value = { Messages };

    ghost view = { λ r. messages_of r.fields };
}

// The fields of a message, of each the last one that was read so far.
#[derive(Clone, Copy)]
struct Parts<'a> {
    name: Span<'a>,
    time: u64,
    content: Span<'a>,
}

impl<'a> Parts<'a> {
    // No fields yet.
    fn none() -> Self
        ensures name { seen_span result.name ≡ record { start = 0; bytes = [] } }
        ensures time { result.time ≡ 0 }
        ensures content { seen_span result.content ≡ record { start = 0; bytes = [] } }
    {
        Parts {
            name: no_bytes(),
            time: 0,
            content: no_bytes(),
        }
    }

    // Takes a field: its number says at once which part it may be.
    #[tactic(auto, unfolding(cy_wire::specs::Message::span_in, cy_wire::specs::Message::number_in))]
    #[inline(always)]
    fn take(&mut self, field: &Field<'a>)
        ensures name { seen_span self.new.name
            ≡ unwrap_or (span_in 1 (seen_field field.now)) (seen_span self.old.name) }
        ensures time { self.new.time
            ≡ unwrap_or (number_in 2 (seen_field field.now)) self.old.time }
        ensures content { seen_span self.new.content
            ≡ unwrap_or (span_in 3 (seen_field field.now)) (seen_span self.old.content) }
    {
        match field.number {
            1 => {
                if let Some(name) = field.span(1) {
                    self.name = name;
                }
            }
            2 => {
                if let Some(time) = field.varint(2) {
                    self.time = time;
                }
            }
            3 => {
                if let Some(content) = field.span(3) {
                    self.content = content;
                }
            }
            _ => {}
        }
    }
}

// The message in some bytes.
#[tactic(auto, unfolding(crate::specs::Reading::message_at, crate::specs::Reading::message_in))]
#[inline(always)]
fn message_of<'a>(message: Span<'a>) -> Result<MessageView<'a>, SectionError>
    ensures { Answers seen result (message_at (seen_span message.entry)) }
{
    let mut fields = Reader::new(message.bytes, message.start);
    let mut parts = Parts::none();
    while let Some(field) = fields.next_field()? {
        parts.take(&field);
    }
    Ok(MessageView {
        channel_name: text_of(parts.name)?,
        time: parts.time,
        content: parts.content.bytes,
        content_at: parts.content.start,
    })
}

impl<'a> MessageReader<'a> {
    /// Reads the body of a chunk that stands at a place of the file. It takes no memory.
    pub fn new(body: &'a [u8], at: u64) -> Self
        requires { at + length body.now < 2 ^ 64 }
        ensures { result ≡ messages_of (fields_of at body.now) }
    {
        MessageReader {
            fields: Reader::new(body, at),
        }
    }

    /// The next message, or none at the end. After a fault nothing is said of what the reader
    /// answers. It takes no memory.
    #[inline(always)]
    pub fn next_message(&mut self) -> Result<Option<MessageView<'a>>, SectionError>
        ensures { TakesMessage result self.old self.new }
    {
        while let Some(field) = self.fields.next_field()? {
            if let Some(span) = field.span(1) {
                return Ok(Some(message_of(span)?));
            }
        }
        Ok(None)
    }
}

// A message in memory of its own.
fn own(alloc: Global, message: &MessageView<'_>) -> Result<BodyMessage, SectionError>
    ensures copy { IfOk result (λ m. m ≡ (seen message.now).message) }
    ensures only_memory { IsOkUnless result SectionError.Memory }
{
    Ok(BodyMessage {
        channel_name: text_copy(alloc, message.channel_name)?,
        time: message.time,
        content: bytes_copy(alloc, message.content)?,
    })
}

// Keeps a message behind others, in memory of its own.
fn keep(
    alloc: Global,
    messages: &mut Vec<BodyMessage>,
    message: &MessageView<'_>,
) -> Result<(), SectionError>
    ensures kept { OnOk result (messages.new.items
        ≡ messages.old.items ++ (seen message.now).message ∷ []) }
    ensures only_memory { IsOkUnless result SectionError.Memory }
{
    messages.push(own(alloc, message)?)?;
    Ok(())
}

// The messages of a chunk's body, in memory of their own.
#[tactic(auto, unfolding(crate::specs::Reading::chunk_body_at))]
fn messages_of(alloc: Global, body: &[u8], at: u64) -> Result<Vec<BodyMessage>, SectionError>
    requires { at + length body.now < 2 ^ 64 }
    ensures { AnswersOr SectionError.Memory (λ v. v.items) result (chunk_body_at at body.now) }
{
    let mut reader = MessageReader::new(body, at);
    let mut messages = Vec::new(alloc);
    while let Some(message) = reader.next_message()? {
        keep(alloc, &mut messages, &message)?;
    }
    Ok(messages)
}

/// The messages of the chunk whose body stands at a place of the file, in memory of their own.
/// [`MessageReader`] lends them one by one, with no copy.
pub fn read_chunk_body(alloc: Global, body: &[u8], at: u64) -> Result<ChunkBody, SectionError>
    requires { at + length body.now < 2 ^ 64 }
    ensures { AnswersOr SectionError.Memory (λ b. b.messages) result (chunk_body_at at body.now) }
{
    let messages = Items::new(messages_of(alloc, body, at)?);
    Ok(ChunkBody { messages })
}
