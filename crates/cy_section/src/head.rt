// Reads a section's head.
ghost use Rattle.std.specs.Prelude.{◌≡◌, ◌≤◌, length};
ghost use Rattle.cy_section.specs.Head.{kind_of, head_at};
ghost use Rattle.cy_section.specs.Section.{kind_number};

use crate::{Head, SectionError, SectionKind};
use byteorder::{ByteOrder, LittleEndian};

/// The bytes of a section's head.
pub const HEAD_SIZE: usize = 16;

/// The bytes of the header's section, which zeros fill up: the next section begins behind them.
pub const HEADER_SIZE: usize = 2064;

impl SectionKind {
    /// The number of a section's type, as heads and entries of an index have it.
    pub fn number(self) -> u32
        ensures { result ≡ kind_number self }
    {
        match self {
            SectionKind::Header => 0,
            SectionKind::ChunkHeader => 1,
            SectionKind::ChunkBody => 2,
            SectionKind::Index => 3,
            SectionKind::Channel => 4,
        }
    }
}

// The section of a type's number, which is at most 4.
fn kind_from(number: u32) -> SectionKind
    ensures { result ≡ kind_of number }
{
    match number {
        0 => SectionKind::Header,
        1 => SectionKind::ChunkHeader,
        2 => SectionKind::ChunkBody,
        3 => SectionKind::Index,
        _ => SectionKind::Channel,
    }
}

/// The head in the first 16 of these bytes, which stand at a place of the file. A type above 4 is
/// refused as `Kind`, then a negative size as `Size`. It takes no memory.
#[tactic(auto, unfolding(crate::specs::Head::head_at))]
pub fn read_head(bytes: &[u8], at: u64) -> Result<Head, SectionError>
    requires { 16 ≤ length bytes.now }
    ensures { result ≡ head_at at bytes.now }
{
    let number = LittleEndian::read_u32(bytes);
    if number > 4 {
        return Err(SectionError::Kind { at, value: number });
    }
    let size = LittleEndian::read_u64(&bytes[8..]);
    if size >= 1 << 63 {
        let value = size.cast_signed();
        return Err(SectionError::Size { at, value });
    }
    let kind = kind_from(number);
    Ok(Head { kind, size })
}
