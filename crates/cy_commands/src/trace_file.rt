// The trace of a play, written piece by piece.
ghost use Rattle.std.specs.Prelude.{◌≡◌, [], length, All};
ghost use Rattle.cy_store.specs.Files.{Holds};
ghost use Rattle.cy_trace_text.specs.Parts.{IsPartOf, parts_text};
ghost use Rattle.cy_trace_text.specs.TraceText.{trace_text};
ghost use Rattle.wake_core.specs.LawfulRun.{Quiet};
ghost use Rattle.wake_core.specs.Rest.{run_shown};
ghost use Rattle.wake_core.specs.Run.{routes_of};
ghost use Rattle.wake_core.specs.WorldOf.{plain_of};
ghost use Rattle.cy_commands.specs.private.PlayWrites.{PutsPieces, WritesPieces};

use cy_comp::Wiring;
use cy_store::Store;
use cy_trace::TraceError;
use cy_trace_text::{Part, push_texts, trace_parts};
use cy_writer::WriteError;
use std::alloc::Global;
use std::thread::Threads;
use wake_core::World;

/// How many parts of a trace are made side by side, and put in one piece.
const AT_ONCE: usize = 32;

// The want of memory for which parts of a trace were not made.
fn no_memory(error: TraceError) -> WriteError
    requires { error ≡ TraceError.Memory }
    ensures { result ≡ WriteError.Memory }
{
    let _memory = error;
    WriteError::Memory
}

// Puts parts of a trace into an empty file, some at a time.
fn put_parts<S: Store, R: Threads + Sync>(
    rt: &R,
    alloc: Global,
    store: &mut S,
    name: &str,
    wiring: &Wiring,
    shadowed: u32,
    world: &World,
    parts: &[Part],
) -> Result<(), WriteError>
    requires quiet { Quiet (plain_of world.now) }
    requires routes { (plain_of world.now).routes ≡ routes_of wiring.now.plans }
    requires channels { length (plain_of world.now).counts ≡ length wiring.now.names }
    requires fit { All (IsPartOf wiring.now.plans (run_shown (plain_of world.now))) parts.now }
    requires empty { Holds (S.shows store.old).files name.now (λ bytes. bytes ≡ []) }
    ensures { PutsPieces name.now (parts_text wiring.now.names wiring.now.plans shadowed
        (run_shown (plain_of world.now)) parts.now) (S.shows store.old) (S.shows store.new)
        result }
{
    let mut piece = Vec::new(alloc);
    let mut at = 0u64;
    let mut rest = parts;
    while !rest.is_empty() {
        let (some, others) = rest.split_at(rest.len().min(AT_ONCE));
        piece.clear();
        push_texts(rt, alloc, &mut piece, world, wiring, shadowed, some).map_err(no_memory)?;
        let end = at
            .checked_add(piece.len() as u64)
            .ok_or(WriteError::Memory)?;
        store.put_at(name, at, &piece)?;
        at = end;
        rest = others;
    }
    Ok(())
}

/// Writes the trace of a world that was made for a wiring and whose run has come to its end. The
/// trace is never in memory as a whole: some of its parts are made side by side and put in one
/// piece, then the next ones.
pub(crate) fn write_trace<S: Store, R: Threads + Sync>(
    rt: &R,
    alloc: Global,
    store: &mut S,
    name: &str,
    wiring: &Wiring,
    shadowed: u32,
    world: &World,
) -> Result<(), WriteError>
    requires quiet { Quiet (plain_of world.now) }
    requires routes { (plain_of world.now).routes ≡ routes_of wiring.now.plans }
    requires channels { length (plain_of world.now).counts ≡ length wiring.now.names }
    ensures { WritesPieces name.now (trace_text wiring.now.names wiring.now.plans shadowed
        (run_shown (plain_of world.now))) (S.shows store.old) (S.shows store.new) result }
{
    let parts = trace_parts(alloc, world, wiring).map_err(no_memory)?;
    store.create(name)?;
    put_parts(
        rt,
        alloc,
        store,
        name,
        wiring,
        shadowed,
        world,
        parts.as_slice(),
    )
}
