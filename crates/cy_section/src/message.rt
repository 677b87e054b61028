// Writes messages, and the section of a chunk's messages.
ghost use Rattle.std.specs.Prelude.{◌≡◌, ◌+◌, ◌≤◌, ◌<◌, ◌++◌, length, take, vec_len, vec_capacity};
ghost use Rattle.std.specs.Prelude.{OnOk, OnErr, IsOkUnless};
ghost use Rattle.cy_wire.specs.Wire.{varint_bytes, field_u64, field_bytes};
ghost use Rattle.cy_section.specs.Section.{section, message_field, chunk_body};
ghost use Rattle.cy_section.specs.declared.types.SectionKind.TheVariants as kind;

use crate::head_bytes::{put_head, set_head_at};
use crate::{BodyMessage, ChunkBody, Piece, SectionError, SectionKind};
use bytes::BufMut;
use cy_wire::push_varint;

/// The tag of a message in a chunk's body, and those of a message's fields: the wire type in the
/// low three bits.
const MESSAGE_TAG: u64 = 8 + 2;

const NAME_TAG: u64 = 8 + 2;

const TIME_TAG: u64 = 2 * 8;

const CONTENT_TAG: u64 = 3 * 8 + 2;

/// Room for the numbers of a message: four tags, three lengths and the time, ten bytes for each.
const MESSAGE_ROOM: usize = 80;

/// As many bytes of a name and a content as leave every length in a message below 128, even that of
/// the fields, which take up to 15 bytes beside them.
const SHORT_BYTES: usize = 112;

/// How many bytes a number takes as a varint.
#[tactic(auto, using(crate::proofs::Lengths::varint_lengths))]
fn varint_len(value: u64) -> u64
    ensures { result ≡ length (varint_bytes value) }
{
    let mut rest = value;
    let mut len = 1;
    while rest >= 128 {
        rest /= 128;
        len += 1;
    }
    len
}

/// How many bytes the fields of a message take.
#[tactic(auto, using(crate::proofs::Lengths::message_fields))]
fn fields_size(name: &str, time: u64, content: &[u8]) -> u64
    requires { length name.now + length content.now ≤ 9223372036854775808 }
    ensures { result ≡ length (field_bytes 1 name.now ++ field_u64 2 time
        ++ field_bytes 3 content.now) }
{
    let name_len = name.len() as u64;
    let content_len = content.len() as u64;
    let name_size = 1 + varint_len(name_len) + name_len;
    let time_size = 1 + varint_len(time);
    let content_size = 1 + varint_len(content_len) + content_len;
    name_size + time_size + content_size
}

/// How many bytes a message takes in a chunk's body.
#[tactic(auto, using(crate::proofs::Lengths::message_sizes))]
pub fn message_size(name: &str, time: u64, content: &[u8]) -> u64
    requires { length name.now + length content.now ≤ 4611686018427387904 }
    ensures { result ≡ length (message_field record {
      channel_name = name.now;
      time = time;
      content = content.now;
    }) }
{
    let size = fields_size(name, time, content);
    1 + varint_len(size) + size
}

/// As many bytes as take less time one by one than by a copy.
const FEW_BYTES: usize = 8;

/// Appends bytes one by one, for which there is room.
#[inline(always)]
fn push_few(out: &mut Vec<u8>, bytes: &[u8])
    requires { vec_len out.old + length bytes.now ≤ vec_capacity out.old }
    ensures items { out.new.items ≡ out.old.items ++ bytes.now }
    ensures len { vec_len out.new ≡ vec_len out.old + length bytes.now }
    ensures capacity { vec_capacity out.new ≡ vec_capacity out.old }
{
    for byte in bytes {
        out.push_reserved(*byte);
    }
}

/// Appends bytes by a copy, for which there is room: that can't fail. It stands by itself, since
/// most bytes are few.
#[inline(never)]
fn push_many(out: &mut Vec<u8>, bytes: &[u8])
    requires { vec_len out.old + length bytes.now ≤ vec_capacity out.old }
    ensures items { out.new.items ≡ out.old.items ++ bytes.now }
    ensures len { vec_len out.new ≡ vec_len out.old + length bytes.now }
    ensures capacity { vec_capacity out.old ≤ vec_capacity out.new }
{
    let _ = out.put_slice(bytes);
}

/// Appends bytes, for which there is room.
#[inline(always)]
fn push_bytes(out: &mut Vec<u8>, bytes: &[u8])
    requires { vec_len out.old + length bytes.now ≤ vec_capacity out.old }
    ensures items { out.new.items ≡ out.old.items ++ bytes.now }
    ensures len { vec_len out.new ≡ vec_len out.old + length bytes.now }
    ensures capacity { vec_capacity out.old ≤ vec_capacity out.new }
{
    if bytes.len() <= FEW_BYTES {
        push_few(out, bytes);
    } else {
        push_many(out, bytes);
    }
}

/// Appends a field that holds bytes, for which there is room.
#[inline(always)]
fn push_field(out: &mut Vec<u8>, tag: u64, bytes: &[u8])
    requires { vec_len out.old + length bytes.now + 20 ≤ vec_capacity out.old }
    ensures items { out.new.items ≡ out.old.items
        ++ (varint_bytes tag ++ varint_bytes (length bytes.now) ++ bytes.now) }
    ensures len { vec_len out.new ≤ vec_len out.old + length bytes.now + 20 }
    ensures capacity { vec_capacity out.old ≤ vec_capacity out.new }
{
    push_varint(out, tag);
    push_varint(out, bytes.len() as u64);
    push_bytes(out, bytes);
}

/// Appends the fields of a message, for which there is room.
fn push_fields(out: &mut Vec<u8>, name: &str, time: u64, content: &[u8])
    requires { vec_len out.old + length name.now + length content.now + 60 ≤ vec_capacity out.old }
    ensures items { out.new.items ≡ out.old.items ++ (field_bytes 1 name.now ++ field_u64 2 time
        ++ field_bytes 3 content.now) }
{
    push_field(out, NAME_TAG, name.as_bytes());
    push_varint(out, TIME_TAG);
    push_varint(out, time);
    push_field(out, CONTENT_TAG, content);
}

/// Makes room for a message. The bytes stay, whatever the answer.
fn reserve_message(out: &mut Vec<u8>, name: &str, content: &[u8]) -> Result<(), SectionError>
    ensures same { out.new.items ≡ out.old.items }
    ensures room { OnOk result (vec_len out.new + length name.now + length content.now + 80
        ≤ vec_capacity out.new) }
    ensures only_memory { IsOkUnless result SectionError.Memory }
{
    let bytes = name.len() + content.len();
    out.reserve(bytes.saturating_add(MESSAGE_ROOM))?;
    Ok(())
}

/// How many bytes the fields of a message with a short name and content take.
#[tactic(auto, using(crate::proofs::Lengths::short_fields))]
fn short_size(name: &str, time: u64, content: &[u8]) -> u64
    requires { length name.now + length content.now ≤ 112 }
    ensures size { result ≡ length (field_bytes 1 name.now ++ field_u64 2 time
        ++ field_bytes 3 content.now) }
    ensures small { result < 128 }
{
    5 + name.len() as u64 + varint_len(time) + content.len() as u64
}

/// Appends a number below 128, for which there is room.
#[inline(always)]
#[tactic(auto, using(crate::proofs::Lengths::small_varints))]
fn push_small(out: &mut Vec<u8>, value: u64)
    requires small { value < 128 }
    requires room { vec_len out.old < vec_capacity out.old }
    ensures items { out.new.items ≡ out.old.items ++ varint_bytes value }
    ensures len { vec_len out.new ≡ vec_len out.old + 1 }
    ensures capacity { vec_capacity out.new ≡ vec_capacity out.old }
{
    out.push_reserved(value as u8);
}

/// Appends a message with a short name and content, for which there is room.
#[tactic(auto, unfolding(crate::specs::Section::message_field))]
fn push_short(out: &mut Vec<u8>, name: &str, time: u64, content: &[u8])
    requires short { length name.now + length content.now ≤ 112 }
    requires room { vec_len out.old + length name.now + length content.now + 80
        ≤ vec_capacity out.old }
    ensures { out.new.items ≡ out.old.items ++ message_field record {
      channel_name = name.now;
      time = time;
      content = content.now;
    } }
{
    push_small(out, MESSAGE_TAG);
    push_small(out, short_size(name, time, content));
    push_small(out, NAME_TAG);
    push_small(out, name.len() as u64);
    push_bytes(out, name.as_bytes());
    push_small(out, TIME_TAG);
    push_varint(out, time);
    push_small(out, CONTENT_TAG);
    push_small(out, content.len() as u64);
    push_bytes(out, content);
}

/// Appends a message of any length, for which there is room. Most are short, so this stands by
/// itself and leaves the registers to those.
#[inline(never)]
#[tactic(auto, unfolding(crate::specs::Section::message_field))]
fn push_any(out: &mut Vec<u8>, name: &str, time: u64, content: &[u8])
    requires room { vec_len out.old + length name.now + length content.now + 80
        ≤ vec_capacity out.old }
    ensures { out.new.items ≡ out.old.items ++ message_field record {
      channel_name = name.now;
      time = time;
      content = content.now;
    } }
{
    push_varint(out, MESSAGE_TAG);
    push_varint(out, fields_size(name, time, content));
    push_fields(out, name, time, content);
}

/// Appends a message as a chunk's body has it. Want of memory changes nothing.
fn push_message(
    out: &mut Vec<u8>,
    name: &str,
    time: u64,
    content: &[u8],
) -> Result<(), SectionError>
    ensures ok { OnOk result (out.new.items ≡ out.old.items ++ message_field record {
      channel_name =
          name.now;
      time = time;
      content = content.now;
    }) }
    ensures err { OnErr result (out.new.items ≡ out.old.items) }
    ensures only_memory { IsOkUnless result SectionError.Memory }
{
    reserve_message(out, name, content)?;
    if name.len() + content.len() <= SHORT_BYTES {
        push_short(out, name, time, content);
    } else {
        push_any(out, name, time, content);
    }
    Ok(())
}

/// Appends a message as a chunk's body has it; its content is copied once. Want of memory changes
/// nothing.
pub fn put_message(
    to: &mut Piece,
    name: &str,
    time: u64,
    content: &[u8],
) -> Result<(), SectionError>
    ensures ok { OnOk result (to.new ≡ to.old ++ message_field record {
      channel_name = name.now;
      time = time;
      content = content.now;
    }) }
    ensures err { OnErr result (to.new ≡ to.old) }
    ensures only_memory { IsOkUnless result SectionError.Memory }
{
    push_message(&mut to.bytes, name, time, content)
}

/// Appends messages. After want of memory some of them may stand behind what was there before.
fn put_messages(to: &mut Piece, messages: &[BodyMessage]) -> Result<(), SectionError>
    ensures ok { OnOk result (to.new ≡ to.old ++ chunk_body messages.now) }
    ensures err { OnErr result (take (length to.old) to.new ≡ to.old) }
    ensures only_memory { IsOkUnless result SectionError.Memory }
{
    for message in messages {
        let content = message.content.as_slice();
        put_message(to, message.channel_name.as_str(), message.time, content)?;
    }
    Ok(())
}

/// Appends the messages of a chunk; their contents are copied once. Want of memory changes nothing.
pub fn put_chunk_body(to: &mut Piece, value: &ChunkBody) -> Result<(), SectionError>
    ensures ok { OnOk result (to.new ≡ to.old ++ section kind.ChunkBody
        (chunk_body value.now.messages)) }
    ensures err { OnErr result (to.new ≡ to.old) }
    ensures only_memory { IsOkUnless result SectionError.Memory }
{
    let start = to.bytes().len();
    // The size in the head is known once the messages stand behind it.
    put_head(to, SectionKind::ChunkBody, 0)?;
    if let Err(error) = put_messages(to, value.messages.as_slice()) {
        to.truncate(start);
        return Err(error);
    }
    set_head_at(to, start, SectionKind::ChunkBody);
    Ok(())
}
