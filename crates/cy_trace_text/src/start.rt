// What the lines of a channel's messages begin with.
ghost use Rattle.std.specs.Prelude.{◌≡◌, ◌≤◌, ◌+◌, ◌++◌, length, take, map, IfOk, IsTrue};
ghost use Rattle.std.specs.List.{All};
ghost use Rattle.cy_trace.specs.LineParts.{tape_start};

use crate::page::{ROOM, put_word};
use cy_msg::{Bytes, Names, push_quoted};
use std::alloc::{AllocError, Global};

/// The longest start of a line that is gathered with others.
const SHORT: usize = 100;

/// As many bytes as are put by a copy of one size.
const FRONT: usize = 16;

/// What the lines of a channel's messages begin with.
#[derive(Drop)]
pub(crate) struct LineStart {
    /// The text.
    pub text: Bytes,
    // The text again, where it is no longer than this, and any bytes behind it.
    front: [u8; FRONT],
    ghost again: { length text ≤ 16 → take (length text) front ≡ text },
}

impl LineStart {
    // For a text.
    fn of(text: Bytes) -> Self
        ensures { result.text ≡ text }
    {
        let mut front = [0; FRONT];
        let bytes = text.as_slice();
        if bytes.len() <= FRONT {
            front[..bytes.len()].copy_from_slice(bytes);
        }
        LineStart { text, front }
    }
}

/// Puts a start behind the bytes in front of a place. Answers the place behind it.
#[inline(always)]
pub(crate) fn put_start(page: &mut [u8; ROOM], at: usize, start: &LineStart) -> usize
    requires short { length start.now.text ≤ 100 }
    requires room { at + 100 ≤ 4096 }
    ensures text { take result page.new ≡ take at page.old ++ start.now.text }
    ensures end { result ≡ at + length start.now.text }
{
    let len = start.text.as_slice().len();
    if len > FRONT {
        return put_word(page, at, start.text.as_slice());
    }
    page[at..at + FRONT].copy_from_slice(&start.front);
    at + len
}

// The start for a channel of a name.
fn start_for(alloc: Global, name: &str) -> Result<LineStart, AllocError>
    ensures { IfOk result (λ s. s.text ≡ tape_start name.now) }
{
    let mut text = Vec::from_slice(alloc, b"tape ")?;
    push_quoted(&mut text, name.as_bytes(), true)?;
    text.extend_from_slice(b" ")?;
    Ok(LineStart::of(Bytes::from_vec(text)))
}

/// The start for each channel, in the order of their numbers.
pub(crate) fn line_starts(alloc: Global, names: &Names) -> Result<Vec<LineStart>, AllocError>
    ensures { IfOk result (λ v. map (λ s. s.text) v.items ≡ map tape_start names.now) }
{
    let mut starts = Vec::with_capacity(alloc, names.count() as usize)?;
    for channel in 0..names.count() {
        starts.push(start_for(alloc, names.name(channel))?)?;
    }
    Ok(starts)
}

/// Whether each of them leaves room for lines that are gathered.
pub(crate) fn are_short(starts: &[LineStart]) -> bool
    ensures { IsTrue result → All (λ s. length s.text ≤ 100) starts.now }
{
    for start in starts {
        if start.text.as_slice().len() > SHORT {
            return false;
        }
    }
    true
}
