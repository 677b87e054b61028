// The text of a trace.
ghost use Rattle.std.specs.Prelude.{◌≡◌, ◌<◌, ◌≤◌, ◌++◌, length, IfOk, IfErr, OnOk};
ghost use Rattle.std.specs.List.{list_any};
ghost use Rattle.wake_core.specs.Run.{routes_of};
ghost use Rattle.wake_core.specs.WorldOf.{plain_of};
ghost use Rattle.wake_core.specs.Events.{is_finished};
ghost use Rattle.wake_core.specs.LawfulRun.{Quiet};
ghost use Rattle.wake_core.specs.Rest.{run_shown};
ghost use Rattle.wake_core.specs.declared.entries.TheConstants.{MOST_PLANNED};
ghost use Rattle.wake_core.specs.Planned.{planned};
ghost use Rattle.cy_trace.specs.TraceForm.{IsTraceText};
ghost use Rattle.cy_trace_text.specs.TraceText.{component_text, components_text};
ghost use Rattle.cy_trace.specs.LineParts.{is_oldest, version_of};
ghost use Rattle.cy_trace_text.specs.TraceText.{trace_text as text_of};

use crate::lines::{push_component, push_head, push_tape_lines};
use crate::typed::trace_is_read_back;
use cy_comp::{Plan, State, Wiring};
use cy_fuse::Overflow;
use cy_msg::Bytes;
use cy_trace::{TraceError, calls_of};
use std::alloc::{AllocError, Global};
use wake_core::World;

/// For how many bytes of text there is room at first for each message of the tape: for the line of
/// a message and that of a call, which most messages have.
const MESSAGE_BYTES: usize = 40;

/// The trace of a world that was made for this wiring and whose run has come to its end: what was
/// played and how many messages were shadowed, each component's arrivals, calls and end, and the
/// tape. `read_trace` reads it back where no more is planned than a world keeps, as for every world
/// that `World::new` makes. Its only error is `Memory`.
pub fn trace_text(
    alloc: Global,
    world: &World,
    wiring: &Wiring,
    shadowed: u32,
) -> Result<Bytes, TraceError>
    requires quiet { Quiet (plain_of world.now) }
    requires routes { (plain_of world.now).routes ≡ routes_of wiring.now.plans }
    requires channels { length (plain_of world.now).counts ≡ length wiring.now.names }
    ensures text { IfOk result (λ t. t ≡ text_of wiring.now.names wiring.now.plans shadowed
        (run_shown (plain_of world.now))) }
    ensures read { planned (plain_of world.now).routes (plain_of world.now).counts ≤ MOST_PLANNED
        → IfOk result IsTraceText }
    ensures memory { IfErr result (λ e. e ≡ TraceError.Memory) }
{
    trace_is_read_back(world, wiring, shadowed);
    let room = world.tape_list().len().saturating_mul(MESSAGE_BYTES);
    let mut to = Vec::with_capacity(alloc, room)?;
    push_trace(alloc, &mut to, world, wiring, shadowed)?;
    Ok(Bytes::from_vec(to))
}

// The same, added to a text.
#[tactic(auto, unfolding(crate::specs::TraceText::trace_text))]
fn push_trace(
    alloc: Global,
    to: &mut Vec<u8>,
    world: &World,
    wiring: &Wiring,
    shadowed: u32,
) -> Result<(), AllocError>
    requires quiet { Quiet (plain_of world.now) }
    requires routes { (plain_of world.now).routes ≡ routes_of wiring.now.plans }
    requires channels { length (plain_of world.now).counts ≡ length wiring.now.names }
    ensures { OnOk result (to.new.items ≡ to.old.items
        ++ text_of wiring.now.names wiring.now.plans shadowed (run_shown (plain_of world.now))) }
{
    let plans = wiring.plans.as_slice();
    let version = version_of(plans);
    push_head(to, version, world.played(), shadowed)?;
    push_components(to, version, world, plans)?;
    push_tape_lines(alloc, to, &wiring.names, world.tape_list())
}

// The version of the form in which these components are told of.
pub(crate) fn version_of(plans: &[Plan]) -> u32
    ensures { result ≡ version_of plans.now }
{
    if some_oldest(plans) { 2 } else { 1 }
}

// Whether one of these components goes on at the oldest tuple that is kept.
fn some_oldest(plans: &[Plan]) -> bool
    ensures { result ≡ list_any (λ p. is_oldest p.overflow) plans.now }
{
    plans.iter().any(|plan| is_oldest(plan.overflow))
}

// Whether a component goes on at the oldest tuple that is kept.
fn is_oldest(overflow: Overflow) -> bool
    ensures { result ≡ is_oldest overflow }
{
    matches!(overflow, Overflow::Oldest)
}

// The components, from the first one on.
fn push_components(
    to: &mut Vec<u8>,
    version: u32,
    world: &World,
    plans: &[Plan],
) -> Result<(), AllocError>
    requires quiet { Quiet (plain_of world.now) }
    requires routes { (plain_of world.now).routes ≡ routes_of plans.now }
    requires few { length plans.now ≤ 64 }
    ensures { OnOk result (to.new.items ≡ to.old.items ++ components_text version
        (run_shown (plain_of world.now)) 0 plans.now) }
{
    for (place, plan) in plans.iter().enumerate() {
        push_numbered(to, version, world, plan, place as u32)?;
    }
    Ok(())
}

// The component of a number.
fn push_numbered(
    to: &mut Vec<u8>,
    version: u32,
    world: &World,
    plan: &Plan,
    component: u32,
) -> Result<(), AllocError>
    requires quiet { Quiet (plain_of world.now) }
    requires known { component < length (plain_of world.now).routes }
    ensures { OnOk result (to.new.items ≡ to.old.items ++ component_text version plan.now
        ((plain_of world.now).arrivals component) ((plain_of world.now).calls component)
        (is_finished ((plain_of world.now).states component))) }
{
    push_component(
        to,
        version,
        plan,
        world.arrival_roles(component),
        calls_of(world, component),
        has_ended(world, component),
    )
}

// Whether a component has ended, in a world whose run has come to its end.
pub(crate) fn has_ended(world: &World, component: u32) -> bool
    requires quiet { Quiet (plain_of world.now) }
    requires known { component < length (plain_of world.now).routes }
    ensures { result ≡ is_finished ((plain_of world.now).states component) }
{
    world.sound();
    matches!(world.routine(component).state(), State::Finished)
}
