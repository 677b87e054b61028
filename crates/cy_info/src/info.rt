// The text that says what a record is, line by line.
ghost use Rattle.std.specs.Prelude.{◌≡◌, ◌++◌, length, true, IfOk, OnOk, IsOkUnless};
ghost use Rattle.cy_msg.specs.Quoted.{quoted};
ghost use Rattle.cy_info.specs.Info.{file_line, yes_or_no, version_line, count_line, time_line};
ghost use Rattle.cy_info.specs.Info.{front_lines, index_line, channel_line, header_difference};
ghost use Rattle.cy_info.specs.Info.{number_differences, message_differences, header_differences};
ghost use Rattle.cy_info.specs.Info.{numbered, entry_line, info_text};
ghost use Rattle.cy_info.specs.private.Facts.{AreFacts, counted_line, has_head, placed_line};
ghost use Rattle.cy_info.specs.private.Facts.{placed_lines};

use crate::facts::{Counted, Facts, IndexFound, facts_of};
use cy_msg::{Bytes, push_quoted};
use cy_reader::{Known, LoadError, Record};
use cy_section::{Header, IndexEntry};
use std::alloc::Global;
use std::collections::HashSet;
use std::io;
use std::io::Write;

// The file's name and length.
#[tactic(auto, unfolding(crate::specs::Info::file_line))]
fn push_file(to: &mut Vec<u8>, name: &str, size: u64) -> io::Result<()>
    ensures { OnOk result (to.new.items ≡ to.old.items ++ file_line name.now size) }
{
    writeln!(to, "file {name} bytes {size}")
}

// A truth value.
fn yes_or_no(value: bool) -> &'static str
    ensures { result.now ≡ yes_or_no value }
{
    if value { "yes" } else { "no" }
}

// What the header says of the file.
#[tactic(auto, unfolding(crate::specs::Info::version_line))]
fn push_version(to: &mut Vec<u8>, header: &Header) -> io::Result<()>
    ensures { OnOk result (to.new.items ≡ to.old.items ++ version_line header.now) }
{
    let complete = yes_or_no(header.is_complete);
    write!(
        to,
        "version {}.{}",
        header.major_version, header.minor_version
    )?;
    writeln!(to, " complete {complete} compress {}", header.compress)
}

// How many channels, chunks and messages were counted.
#[tactic(auto, unfolding(crate::specs::Info::count_line))]
fn push_counts(to: &mut Vec<u8>, counted: &Counted) -> io::Result<()>
    ensures { OnOk result (to.new.items ≡ to.old.items ++ count_line counted.now) }
{
    write!(to, "channels {}", counted.channel_number)?;
    write!(to, " chunks {}", counted.chunk_number)?;
    writeln!(to, " messages {}", counted.message_number)
}

// The least and greatest time.
#[tactic(auto, unfolding(crate::specs::Info::time_line))]
fn push_times(to: &mut Vec<u8>, counted: &Counted) -> io::Result<()>
    ensures { OnOk result (to.new.items ≡ to.old.items ++ time_line counted.now) }
{
    writeln!(to, "time {} to {}", counted.begin_time, counted.end_time)
}

// These three.
fn push_front(to: &mut Vec<u8>, header: &Header, counted: &Counted) -> io::Result<()>
    ensures { OnOk result (to.new.items ≡ to.old.items ++ front_lines header.now counted.now) }
{
    push_version(to, header)?;
    push_counts(to, counted)?;
    push_times(to, counted)
}

// What was found of the index.
fn push_index(to: &mut Vec<u8>, index: &IndexFound) -> io::Result<()>
    ensures { OnOk result (to.new.items ≡ to.old.items ++ index_line index.now) }
{
    match index {
        IndexFound::Absent => writeln!(to, "index absent"),
        IndexFound::Cut => writeln!(to, "index cut"),
        IndexFound::Unreadable => writeln!(to, "index unreadable"),
        IndexFound::Present(entries) => {
            let count = entries.as_slice().len();
            writeln!(to, "index present entries {count}")
        }
    }
}

// A name in quotes.
fn push_name(to: &mut Vec<u8>, name: &str) -> io::Result<()>
    ensures { OnOk result (to.new.items ≡ to.old.items ++ quoted true name.now) }
{
    Ok(push_quoted(to, name.as_bytes(), true)?)
}

// A channel with the number of its messages.
#[tactic(auto, unfolding(crate::specs::Info::channel_line))]
fn push_channel(to: &mut Vec<u8>, known: &Known, count: u64) -> io::Result<()>
    ensures { OnOk result (to.new.items ≡ to.old.items ++ channel_line known.now count) }
{
    write!(to, "channel ")?;
    push_name(to, known.channel.name.as_str())?;
    write!(to, " messages {count} type ")?;
    push_name(to, known.channel.message_type.as_str())?;
    writeln!(to, "")
}

// The channels, each with the number of its messages.
fn push_channels(to: &mut Vec<u8>, channels: &[Known], counts: &[u64]) -> io::Result<()>
    requires { length counts.now ≡ length channels.now }
    ensures { OnOk result (to.new.items
        ≡ to.old.items ++ numbered (counted_line counts.now) 0 channels.now) }
{
    for (number, known) in channels.iter().enumerate() {
        push_channel(to, known, counts[number])?;
    }
    Ok(())
}

// A number of the header, where it differs from the one that was counted.
#[tactic(auto, unfolding(crate::specs::Info::header_difference))]
fn push_difference(to: &mut Vec<u8>, field: &str, header: u64, counted: u64) -> io::Result<()>
    ensures { OnOk result (to.new.items
        ≡ to.old.items ++ header_difference field.now header counted) }
{
    if header == counted {
        return Ok(());
    }
    writeln!(to, "differs {field} header {header} counted {counted}")
}

// Those of the index, the chunks and the channels.
#[tactic(auto, unfolding(crate::specs::Info::number_differences))]
fn push_numbers(to: &mut Vec<u8>, header: &Header, counted: &Counted) -> io::Result<()>
    ensures { OnOk result (to.new.items
        ≡ to.old.items ++ number_differences header.now counted.now) }
{
    let (h, c) = (header, counted);
    push_difference(to, "index_position", h.index_position, c.index_position)?;
    push_difference(to, "chunk_number", h.chunk_number, c.chunk_number)?;
    push_difference(to, "channel_number", h.channel_number, c.channel_number)
}

// Those of the messages and the file.
#[tactic(auto, unfolding(crate::specs::Info::message_differences))]
fn push_messages(to: &mut Vec<u8>, header: &Header, counted: &Counted) -> io::Result<()>
    ensures { OnOk result (to.new.items
        ≡ to.old.items ++ message_differences header.now counted.now) }
{
    let (h, c) = (header, counted);
    push_difference(to, "begin_time", h.begin_time, c.begin_time)?;
    push_difference(to, "end_time", h.end_time, c.end_time)?;
    push_difference(to, "message_number", h.message_number, c.message_number)?;
    push_difference(to, "size", h.size, c.size)
}

// All those of a complete header.
fn push_header_differences(to: &mut Vec<u8>, header: &Header, counted: &Counted) -> io::Result<()>
    ensures { OnOk result (to.new.items
        ≡ to.old.items ++ header_differences header.now counted.now) }
{
    if !header.is_complete {
        return Ok(());
    }
    push_numbers(to, header, counted)?;
    push_messages(to, header, counted)
}

// Whether the head of a section of an entry's type stands at its position.
fn has_head(places: &HashSet<(u64, u32)>, entry: &IndexEntry) -> bool
    ensures { result ≡ has_head places.now entry.now.position entry.now.kind }
{
    places.contains(&(entry.position, entry.kind))
}

// An entry of the index, where it doesn't name a section.
#[tactic(auto, unfolding(crate::specs::Info::entry_line))]
fn push_entry(to: &mut Vec<u8>, number: usize, entry: &IndexEntry, named: bool) -> io::Result<()>
    ensures { OnOk result (to.new.items ≡ to.old.items ++ entry_line number entry.now named) }
{
    if named {
        return Ok(());
    }
    writeln!(
        to,
        "differs index entry {number} position {}",
        entry.position
    )
}

// All those.
fn push_entries(
    to: &mut Vec<u8>,
    entries: &[IndexEntry],
    places: &HashSet<(u64, u32)>,
) -> io::Result<()>
    ensures { OnOk result (to.new.items
        ≡ to.old.items ++ numbered (placed_line places.now) 0 entries.now) }
{
    for (number, entry) in entries.iter().enumerate() {
        push_entry(to, number, entry, has_head(places, entry))?;
    }
    Ok(())
}

// All those of an index that was read.
fn push_index_differences(
    to: &mut Vec<u8>,
    index: &IndexFound,
    places: &HashSet<(u64, u32)>,
) -> io::Result<()>
    ensures { OnOk result (to.new.items ≡ to.old.items ++ placed_lines places.now index.now) }
{
    match index {
        IndexFound::Present(entries) => push_entries(to, entries.as_slice(), places),
        IndexFound::Absent | IndexFound::Cut | IndexFound::Unreadable => Ok(()),
    }
}

// The text of a record, at the end of others.
fn push_info(to: &mut Vec<u8>, whole: &Record, facts: &Facts) -> io::Result<()>
    requires { AreFacts whole.now facts.now }
    ensures { OnOk result (to.new.items ≡ to.old.items ++ info_text whole.now) }
{
    push_file(to, whole.name(), whole.size())?;
    push_front(to, whole.header(), &facts.counted)?;
    push_index(to, &facts.index)?;
    push_channels(to, whole.known(), facts.counts.as_slice())?;
    push_header_differences(to, whole.header(), &facts.counted)?;
    push_index_differences(to, &facts.index, &facts.places)
}

// The same, as a text of its own.
fn text(alloc: Global, whole: &Record, facts: &Facts) -> Result<Bytes, LoadError>
    requires { AreFacts whole.now facts.now }
    ensures text { IfOk result (λ text. text ≡ info_text whole.now) }
    ensures only_memory { IsOkUnless result LoadError.Memory }
{
    let mut to = Vec::new(alloc);
    match push_info(&mut to, whole, facts) {
        Ok(()) => Ok(Bytes::from_vec(to)),
        // A write to a `Vec` fails for want of memory alone.
        Err(_) => Err(LoadError::Memory),
    }
}

/// What a record is, in lines: its file, its header, the counted channels, chunks and messages, the
/// least and greatest time, its index, each channel with its number of messages, and then each
/// field of a complete header and each entry of a readable index that differs from what was
/// counted. The file's name stands as it was given. Its only error is `Memory`.
pub fn info_text(alloc: Global, whole: &Record) -> Result<Bytes, LoadError>
    ensures text { IfOk result (λ text. text ≡ info_text whole.now) }
    ensures only_memory { IsOkUnless result LoadError.Memory }
{
    let facts = facts_of(alloc, whole)?;
    let text = text(alloc, whole, &facts);
    drop(facts);
    text
}
