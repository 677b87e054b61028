// Reads the header of a record's file.
ghost use Rattle.std.specs.Prelude.{◌≤◌, ◌+◌, length, IfOk, IfErr, ◌≢◌};
ghost use Rattle.cy_msg.specs.Answer.{Answers};
ghost use Rattle.cy_reader.specs.Record.{HasLength, fields_header, sized_header, file_header};
ghost use Rattle.cy_cut.specs.Sections.{header_end};

use crate::LoadError;
use byteorder::{ByteOrder, LittleEndian};
use cy_section::{HEAD_SIZE, HEADER_SIZE, Header, SectionError, read_header};

/// The longest file that is read, in bytes.
pub const LONGEST_FILE: u64 = 2_147_483_648;

// The header whose fields take so many bytes, where it has no compression.
fn uncompressed_header(file: &[u8], size: usize) -> Result<Header, LoadError>
    requires { 16 + size ≤ length file.now }
    ensures header { Answers (λ header. header) result (fields_header file.now size) }
    ensures not_store { IfErr result (λ e. e ≢ LoadError.Store) }
{
    let header = read_header(&file[HEAD_SIZE..HEAD_SIZE + size], HEAD_SIZE as u64)?;
    if header.compress != 0 {
        return Err(LoadError::Compressed {
            kind: header.compress,
        });
    }
    Ok(header)
}

// The header of a file, of which its head says that its fields take so many bytes.
fn sized_header(file: &[u8], size: u64) -> Result<Header, LoadError>
    ensures header { Answers (λ header. header) result (sized_header file.now size) }
    ensures long { IfOk result (λ _. header_end ≤ length file.now) }
    ensures not_store { IfErr result (λ e. e ≢ LoadError.Store) }
{
    if size > (HEADER_SIZE - HEAD_SIZE) as u64 {
        let value = size.cast_signed();
        return Err(LoadError::Section(SectionError::Size { at: 0, value }));
    }
    if file.len() < HEADER_SIZE {
        return Err(LoadError::Section(SectionError::Cut { at: 0 }));
    }
    uncompressed_header(file, size as usize)
}

/// The header of a file, which is a record's: of a size that is read, and not compressed.
#[tactic(auto, unfolding(crate::specs::Record::file_header))]
pub fn file_header(file: &[u8]) -> Result<Header, LoadError>
    ensures header { Answers (λ header. header) result (file_header file.now) }
    ensures sized { IfOk result (λ _. HasLength file.now) }
    ensures not_store { IfErr result (λ e. e ≢ LoadError.Store) }
{
    let count = file.len() as u64;
    if count > LONGEST_FILE {
        return Err(LoadError::FileTooLarge { count });
    }
    if file.len() < HEAD_SIZE || LittleEndian::read_u32(file) != 0 {
        return Err(LoadError::NotRecord);
    }
    sized_header(file, LittleEndian::read_u64(&file[8..]))
}
