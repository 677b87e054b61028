// Decodes the bodies of chunks side by side, each by itself.
ghost use Rattle.std.specs.Prelude.{◌≡◌, ◌≤◌, ◌+◌, All, length, IfOk, IfSome};
ghost use Rattle.cy_cut.specs.Sections.{longest_file};
ghost use Rattle.cy_reader.specs.private.Alone.{IsAlone, AreDecoded};

use crate::LoadError;
use crate::channels::Channels;
use crate::gathering::add_chunk;
use crate::known::Known;
use crate::loading::{Loading, Message};
use cy_cut::Part;
use cy_section::SectionKind;
use rayon::prelude::*;
use std::alloc::{AllocError, Global};
use std::thread::Threads;

// The shortest body that is decoded by itself, in bytes: below, the lists that are made for it and
// joined take as long as is won.
const SHORTEST_BODY: usize = 4_096;

// How many bytes of bodies are worth threads: below, their start takes as long as is won.
const WORTH_THREADS: usize = 524_288;

// What is met in a body by itself: its channels, in the order of their first mention, and its
// messages.
#[derive(Drop)]
pub(crate) struct Alone {
    pub channels: Vec<Known>,
    pub messages: Vec<Message>,
}

impl Alone {
    // What was met, where it is all.
    fn of(loading: Loading) -> Self
        ensures channels { result.channels ≡ loading.channels.list }
        ensures messages { result.messages ≡ loading.messages }
    {
        let Loading { channels, messages } = loading;
        let Channels { list, numbers } = channels;
        drop(numbers);
        Alone {
            channels: list,
            messages,
        }
    }
}

// What is met in a chunk's body by itself, or its first fault or limit.
pub(crate) fn alone_of(alloc: Global, part: &Part) -> Result<Alone, LoadError>
    requires { part.now.body_at + length part.now.body ≤ longest_file }
    ensures { IfOk result (IsAlone part.now) }
{
    let mut loading = Loading::none(alloc);
    match add_chunk(alloc, &[], &mut loading, part) {
        Ok(()) => Ok(Alone::of(loading)),
        Err(error) => {
            drop(loading);
            Err(error)
        }
    }
}

// The same where it is worth while. None of another section, of a body that is short, and of one
// that is refused by itself or for want of memory: these are met in their turn.
fn alone_in(alloc: Global, part: &Part) -> Option<Alone>
    requires { part.now.body_at + length part.now.body ≤ longest_file }
    ensures { IfSome result (IsAlone part.now) }
{
    let is_chunk = matches!(part.kind, SectionKind::ChunkBody);
    if !is_chunk || part.body.as_slice().len() < SHORTEST_BODY {
        return None;
    }
    alone_of(alloc, part).ok()
}

// The bytes of the bodies of sections together.
pub(crate) fn bytes_in(parts: &[Part]) -> usize {
    parts.iter().fold(0_usize, |sum, part| {
        sum.saturating_add(part.body.as_slice().len())
    })
}

/// How few sections a thread should take: with few bytes in all, one thread takes all.
pub fn least_piece(parts: &[Part]) -> usize {
    if bytes_in(parts) < WORTH_THREADS {
        usize::MAX
    } else {
        1
    }
}

// What is met in each section by itself, where it is a chunk's body that is decoded so.
pub(crate) fn decode<R: Threads + Sync>(
    rt: &R,
    alloc: Global,
    parts: &[Part],
) -> Result<Vec<Option<Alone>>, AllocError>
    requires { All (λ p. p.body_at + length p.body ≤ longest_file) parts.now }
    ensures { IfOk result (λ v. AreDecoded parts.now v.items) }
{
    parts
        .par_iter()
        .with_min_len(least_piece(parts))
        .map(
            |part: &Part| -> Option<Alone>
                requires { part.now.body_at + length part.now.body ≤ longest_file }
                ensures { IfSome result (IsAlone part.now) }
            { alone_in(alloc, part) },
        )
        .collect(rt, alloc)
}
