// The two headers of a record that is written.
ghost use Rattle.std.specs.Prelude.{◌≡◌, true, IfOk, IsOkUnless};
ghost use Rattle.cy_section.specs.declared.types.Header.{Header};
ghost use Rattle.cy_section.specs.Section.{header_section as section_of};
ghost use Rattle.cy_section.specs.RecordText.{incomplete_header};

use crate::WriteError;
use crate::chunk::{CHUNK_INTERVAL, CHUNK_RAW_SIZE};
use crate::error::no_memory_for_section;
use cy_section::{ChunkHeader, Header, Piece, put_header};
use std::alloc::Global;

/// What the header of a whole record counts beside its messages.
#[derive(Clone, Copy)]
pub(crate) struct Counts {
    pub chunk_number: u64,
    pub channel_number: u64,
    pub index_position: u64,
    /// The length of the file, in bytes.
    pub size: u64,
}

/// The header of a record that is still being written.
pub(crate) fn incomplete() -> Header
    ensures { result ≡ incomplete_header }
{
    Header {
        major_version: 1,
        chunk_interval: CHUNK_INTERVAL,
        chunk_raw_size: CHUNK_RAW_SIZE,
        ..Header::default()
    }
}

/// The header of a whole record, whose messages have these numbers.
pub(crate) fn complete(counts: &Counts, counted: &ChunkHeader) -> Header
    ensures { result ≡ record incomplete_header {
      index_position = counts.now.index_position;
      chunk_number = counts.now.chunk_number;
      channel_number = counts.now.channel_number;
      begin_time = counted.now.begin_time;
      end_time = counted.now.end_time;
      message_number = counted.now.message_number;
      size = counts.now.size;
      is_complete = true;
    } }
{
    Header {
        index_position: counts.index_position,
        chunk_number: counts.chunk_number,
        channel_number: counts.channel_number,
        begin_time: counted.begin_time,
        end_time: counted.end_time,
        message_number: counted.message_number,
        size: counts.size,
        is_complete: true,
        ..incomplete()
    }
}

/// The section of a header.
pub(crate) fn header_section(alloc: Global, header: &Header) -> Result<Piece, WriteError>
    ensures section { IfOk result (λ p. p ≡ section_of header.now) }
    ensures only_memory { IsOkUnless result WriteError.Memory }
{
    let mut section = Piece::new(alloc);
    put_header(&mut section, header).map_err(no_memory_for_section)?;
    Ok(section)
}
