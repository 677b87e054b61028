// Finds the sections of a record's file.
ghost use Rattle.std.specs.Prelude.{◌≡◌, ◌≤◌, ◌+◌, length, drop, IfOk, IfSome};
ghost use Rattle.cy_section.specs.Head.{head_at};
ghost use Rattle.cy_cut.specs.Sections.{sized_section, with_head, section_at};
ghost use Rattle.cy_cut.specs.Found.{GivesSection};
ghost use Rattle.cy_cut.specs.Stands.{Stands};

use byteorder::{ByteOrder, LittleEndian};
use cy_section::{HEAD_SIZE, Head, SectionError, SectionKind, read_head};

/// The longest section that is read, but for the index, in bytes.
pub(crate) const LONGEST_SECTION: u64 = 536_870_912;

/// A section of a file: its kind, the place of its body in the file, and the body.
#[derive(Clone, Copy)]
pub struct SectionView<'a> {
    pub kind: SectionKind,
    pub body_at: usize,
    pub body: &'a [u8],
}

// The section of this head, which stands at a place of the file and is no index's.
fn sized_section(
    file: &[u8],
    at: usize,
    head: Head,
) -> Result<Option<SectionView<'_>>, SectionError>
    requires { at + 16 ≤ length file.now }
    ensures section { GivesSection result (sized_section file.now at head.kind head.size) }
    ensures stands { IfOk result (λ found. IfSome found (λ s. (s.body_at ≡ at + 16)
        × Stands file.now s.body_at s.body.now)) }
{
    let place = at as u64;
    if head.size > LONGEST_SECTION {
        return Err(SectionError::TooLong {
            at: place,
            value: head.size,
        });
    }
    let body_at = at + HEAD_SIZE;
    let size = head.size as usize;
    if file.len() - body_at < size {
        return Err(SectionError::Cut { at: place });
    }
    Ok(Some(SectionView {
        kind: head.kind,
        body_at,
        body: &file[body_at..body_at + size],
    }))
}

// The section whose head stands at a place of the file, none where it is an index's.
fn headed_section(file: &[u8], at: usize) -> Result<Option<SectionView<'_>>, SectionError>
    requires { at + 16 ≤ length file.now }
    ensures section { GivesSection result
        (with_head file.now at (head_at at (drop at file.now))) }
    ensures stands { IfOk result (λ found. IfSome found (λ s. (s.body_at ≡ at + 16)
        × Stands file.now s.body_at s.body.now)) }
{
    let head = read_head(&file[at..], at as u64)?;
    match head.kind {
        SectionKind::Index => Ok(None),
        _ => sized_section(file, at, head),
    }
}

/// What is at a place of the file: a section, or none at the file's end and at an index.
#[tactic(auto, unfolding(crate::specs::Sections::section_at))]
pub fn section_at(file: &[u8], at: usize) -> Result<Option<SectionView<'_>>, SectionError>
    requires { at ≤ length file.now }
    ensures section { GivesSection result (section_at file.now at) }
    ensures stands { IfOk result (λ found. IfSome found (λ s. (s.body_at ≡ at + 16)
        × Stands file.now s.body_at s.body.now)) }
{
    let place = at as u64;
    let rest = &file[at..];
    if rest.is_empty() {
        return Ok(None);
    }
    if rest.len() < HEAD_SIZE {
        return Err(SectionError::Cut { at: place });
    }
    if LittleEndian::read_u32(rest) == 0 {
        return Err(SectionError::Kind {
            at: place,
            value: 0,
        });
    }
    headed_section(file, at)
}
