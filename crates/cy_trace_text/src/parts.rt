// A trace in parts, each of which is made by itself.
ghost use Rattle.std.specs.Prelude.{◌≡◌, ◌≤◌, ◌<◌, ◌+◌, ◌++◌, ℕ, List, length, take, drop, All};
ghost use Rattle.std.specs.Prelude.{slice_get, Some, is_some, filter, IfOk, IfErr, OnOk};
ghost use Rattle.std.specs.List.{flat_map};
ghost use Rattle.cy_comp.specs.declared.call.Call.{Call};
ghost use Rattle.cy_comp.specs.declared.plan.Plan.{Plan};
ghost use Rattle.wake_core.specs.Events.{is_finished};
ghost use Rattle.wake_core.specs.LawfulRun.{Quiet};
ghost use Rattle.wake_core.specs.Rest.{run_shown};
ghost use Rattle.wake_core.specs.Run.{Run, routes_of};
ghost use Rattle.wake_core.specs.WorldOf.{plain_of};
ghost use Rattle.cy_trace_text.specs.Parts.{ArePartsOf, IsPartOf, parts_text, part_text as text_of};
ghost use Rattle.cy_trace_text.specs.TraceText.{call_lines, component_text, tape_line};
ghost use Rattle.cy_trace.specs.LineParts.{version_of as version_for};
ghost use Rattle.cy_trace_text.specs.private.Adding.{Adds, AreTexts};

use crate::lines::{push_call_lines, push_end_line, push_head, push_opening, push_tape_lines};
use crate::text::{has_ended, version_of};
use cy_comp::{Calls, Wiring};
use cy_msg::{Bytes, Items};
use cy_trace::{TraceError, calls_of};
use rayon::prelude::*;
use std::alloc::{AllocError, Global};
use std::thread::Threads;
use wake_core::World;

/// How many lines of calls, or of the tape, a part has at most.
const PART_LINES: usize = 8_192;

/// For how many bytes of text there is room at first for each line of a part.
const LINE_BYTES: usize = 56;

/// How many lines are worth threads: below, their start takes as long as is won.
const WORTH_THREADS: usize = 16_384;

/// Into how many pieces parts are split that are made side by side.
const MOST_PIECES: usize = 8;

/// A part of a trace.
#[derive(Clone, Copy, Debug, PartialEq, Eq)]
pub enum Part {
    /// The title, and how many messages were played and shadowed.
    Head,
    /// The name of a component, its overflow, and what arrived at it.
    Opening {
        /// The component's number.
        component: u32,
    },
    /// Calls of a component.
    Calls {
        /// The component's number.
        component: u32,
        /// The place of the first one among its calls, from 0.
        from: usize,
        /// How many there are.
        count: usize,
        /// How many outputs the calls before them have.
        before: usize,
    },
    /// The end of a component.
    Ending {
        /// The component's number.
        component: u32,
    },
    /// Messages of the tape.
    Tape {
        /// The place of the first one on the tape, from 0.
        from: usize,
        /// How many there are.
        count: usize,
    },
}

// Adds the parts of a component's calls.
fn push_call_parts(
    parts: &mut Vec<Part>,
    component: u32,
    calls: Calls<'_>,
) -> Result<(), AllocError>
    ensures { OnOk result ((names : List (List ℕ)) (plans : List Plan) (shadowed : ℕ) (w : Run)
        → component < length plans → w.calls component ≡ calls.entry
        → Adds names plans shadowed w parts.old.items parts.new.items
        (call_lines 0 calls.entry)) }
{
    let mut from = 0;
    let mut before = 0;
    let mut left = calls.len();
    let mut rest = calls;
    while left > 0 {
        let count = left.min(PART_LINES);
        let (some, others) = rest.split_at(count);
        parts.push(Part::Calls {
            component,
            from,
            count,
            before,
        })?;
        before += some.outputs();
        from += count;
        left -= count;
        rest = others;
    }
    Ok(())
}

// Adds the parts of a component.
fn push_component_parts(
    parts: &mut Vec<Part>,
    world: &World,
    component: u32,
) -> Result<(), AllocError>
    requires quiet { Quiet (plain_of world.now) }
    requires known { component < length (plain_of world.now).routes }
    ensures { OnOk result ((names : List (List ℕ)) (plans : List Plan) (shadowed : ℕ) (p : Plan)
        → slice_get plans component ≡ Some p
        → Adds names plans shadowed (run_shown (plain_of world.now)) parts.old.items
        parts.new.items (component_text (version_for plans) p
        ((plain_of world.now).arrivals component) ((plain_of world.now).calls component)
        (is_finished ((plain_of world.now).states component)))) }
{
    parts.push(Part::Opening { component })?;
    push_call_parts(parts, component, calls_of(world, component))?;
    parts.push(Part::Ending { component })?;
    Ok(())
}

// Adds the parts of a tape of so many messages.
fn push_tape_parts(parts: &mut Vec<Part>, messages: usize) -> Result<(), AllocError>
    ensures { OnOk result ((names : List (List ℕ)) (plans : List Plan) (shadowed : ℕ) (w : Run)
        → length w.tape ≡ messages → Adds names plans shadowed w parts.old.items parts.new.items
        (flat_map (tape_line names) w.tape)) }
{
    let mut from = 0;
    while from < messages {
        let count = (messages - from).min(PART_LINES);
        parts.push(Part::Tape { from, count })?;
        from += count;
    }
    Ok(())
}

/// The parts of the trace of a world that was made for this wiring and whose run has come to its
/// end, in order. Each has at most so many lines that some of them can be made at once, and few
/// bytes of memory. Its only error is `Memory`.
pub fn trace_parts(alloc: Global, world: &World, wiring: &Wiring) -> Result<Items<Part>, TraceError>
    requires quiet { Quiet (plain_of world.now) }
    requires routes { (plain_of world.now).routes ≡ routes_of wiring.now.plans }
    requires channels { length (plain_of world.now).counts ≡ length wiring.now.names }
    ensures parts { IfOk result (ArePartsOf wiring.now.names wiring.now.plans
        (run_shown (plain_of world.now))) }
    ensures memory { IfErr result (λ e. e ≡ TraceError.Memory) }
{
    let mut parts = Vec::new(alloc);
    parts.push(Part::Head)?;
    for component in 0..wiring.plans.as_slice().len() {
        push_component_parts(&mut parts, world, component as u32)?;
    }
    push_tape_parts(&mut parts, world.tape_list().len())?;
    Ok(Items::new(parts))
}

// Some of a component's calls.
fn some_calls(world: &World, component: u32, from: usize, count: usize) -> Calls<'_>
    requires quiet { Quiet (plain_of world.now) }
    requires known { component < length (plain_of world.now).routes }
    requires there { from + count ≤ length ((plain_of world.now).calls component) }
    ensures { result ≡ take count (drop from ((plain_of world.now).calls component)) }
{
    let (_, rest) = calls_of(world, component).split_at(from);
    let (some, _) = rest.split_at(count);
    some
}

// Appends the text of a part.
fn push_part(
    alloc: Global,
    to: &mut Vec<u8>,
    world: &World,
    wiring: &Wiring,
    shadowed: u32,
    part: Part,
) -> Result<(), AllocError>
    requires quiet { Quiet (plain_of world.now) }
    requires routes { (plain_of world.now).routes ≡ routes_of wiring.now.plans }
    requires channels { length (plain_of world.now).counts ≡ length wiring.now.names }
    requires fit { IsPartOf wiring.now.plans (run_shown (plain_of world.now)) part }
    ensures { OnOk result (to.new.items ≡ to.old.items ++ text_of wiring.now.names wiring.now.plans
        shadowed (run_shown (plain_of world.now)) part) }
{
    let plans = wiring.plans.as_slice();
    match part {
        Part::Head => push_head(to, version_of(plans), world.played(), shadowed),
        Part::Opening { component } => {
            let plan = &plans[component as usize];
            push_opening(to, version_of(plans), plan, world.arrival_roles(component))
        }
        Part::Calls {
            component,
            from,
            count,
            before,
        } => push_call_lines(to, before, some_calls(world, component, from, count)),
        Part::Ending { component } => {
            let next = calls_of(world, component).next_cursor();
            push_end_line(to, has_ended(world, component), next)
        }
        Part::Tape { from, count } => {
            let tape = &world.tape_list()[from..from + count];
            push_tape_lines(alloc, to, &wiring.names, tape)
        }
    }
}

// About how many lines a part has.
fn lines_of(part: Part) -> usize {
    match part {
        Part::Calls { count, .. } | Part::Tape { count, .. } => count,
        _ => 1,
    }
}

// The text of a part.
fn part_text(
    alloc: Global,
    world: &World,
    wiring: &Wiring,
    shadowed: u32,
    part: Part,
) -> Result<Bytes, AllocError>
    requires quiet { Quiet (plain_of world.now) }
    requires routes { (plain_of world.now).routes ≡ routes_of wiring.now.plans }
    requires channels { length (plain_of world.now).counts ≡ length wiring.now.names }
    requires fit { IsPartOf wiring.now.plans (run_shown (plain_of world.now)) part }
    ensures { IfOk result (λ t. t ≡ text_of wiring.now.names wiring.now.plans shadowed
        (run_shown (plain_of world.now)) part) }
{
    let mut to = Vec::with_capacity(alloc, lines_of(part).saturating_mul(LINE_BYTES))?;
    push_part(alloc, &mut to, world, wiring, shadowed, part)?;
    Ok(Bytes::from_vec(to))
}

/// Appends the texts of some parts of a trace, made side by side. Its only error is `Memory`, and
/// then some of them may be appended.
pub fn push_texts<R: Threads + Sync>(
    rt: &R,
    alloc: Global,
    to: &mut Vec<u8>,
    world: &World,
    wiring: &Wiring,
    shadowed: u32,
    parts: &[Part],
) -> Result<(), TraceError>
    requires quiet { Quiet (plain_of world.now) }
    requires routes { (plain_of world.now).routes ≡ routes_of wiring.now.plans }
    requires channels { length (plain_of world.now).counts ≡ length wiring.now.names }
    requires fit { All (IsPartOf wiring.now.plans (run_shown (plain_of world.now))) parts.now }
    ensures text { OnOk result (to.new.items ≡ to.old.items ++ parts_text wiring.now.names
        wiring.now.plans shadowed (run_shown (plain_of world.now)) parts.now) }
    ensures memory { IfErr result (λ e. e ≡ TraceError.Memory) }
{
    let texts = texts_of(rt, alloc, world, wiring, shadowed, parts)?;
    for text in texts.as_slice() {
        match text {
            Ok(text) => to.extend_from_slice(text.as_slice())?,
            Err(AllocError) => return Err(TraceError::Memory),
        }
    }
    Ok(())
}

// How few parts a thread takes: with few lines in all, one thread takes all. Each thread is started
// anew, which takes as long as hundreds of lines, so that there are not more pieces than pay.
fn least_piece(parts: &[Part]) -> usize {
    let lines = parts
        .iter()
        .fold(0_usize, |sum, part| sum.saturating_add(lines_of(*part)));
    if lines < WORTH_THREADS {
        usize::MAX
    } else {
        (parts.len() / MOST_PIECES).max(1)
    }
}

// The text of each part, made side by side.
fn texts_of<R: Threads + Sync>(
    rt: &R,
    alloc: Global,
    world: &World,
    wiring: &Wiring,
    shadowed: u32,
    parts: &[Part],
) -> Result<Vec<Result<Bytes, AllocError>>, AllocError>
    requires quiet { Quiet (plain_of world.now) }
    requires routes { (plain_of world.now).routes ≡ routes_of wiring.now.plans }
    requires channels { length (plain_of world.now).counts ≡ length wiring.now.names }
    requires fit { All (IsPartOf wiring.now.plans (run_shown (plain_of world.now))) parts.now }
    ensures { IfOk result (λ v. AreTexts wiring.now.names wiring.now.plans shadowed
        (run_shown (plain_of world.now)) parts.now v.items) }
{
    parts
        .par_iter()
        .with_min_len(least_piece(parts))
        .map(
            |part: &Part| -> Result<Bytes, AllocError>
                requires quiet { Quiet (plain_of world.now) }
                requires routes { (plain_of world.now).routes ≡ routes_of wiring.now.plans }
                requires channels { length (plain_of world.now).counts ≡ length wiring.now.names }
                requires fit { IsPartOf wiring.now.plans (run_shown (plain_of world.now)) part.now }
                ensures { IfOk result (λ t. t ≡ text_of wiring.entry.now.names
                    wiring.entry.now.plans shadowed (run_shown (plain_of world.entry.now))
                    part.now) }
            { part_text(alloc, world, wiring, shadowed, *part) },
        )
        .collect(rt, alloc)
}
