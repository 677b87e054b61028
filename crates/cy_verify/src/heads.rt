// What a trace tells of the components and of the numbers of messages.
ghost use Rattle.std.specs.Prelude.{◌≡◌, length};
ghost use Rattle.std.specs.Bool.{Decides};
ghost use Rattle.std.specs.List.{list_any};
ghost use Rattle.cy_trace.specs.LineParts.{is_oldest, version_of};
ghost use Rattle.cy_verify.specs.private.Passes.{IsNamed, AreNamed, IsHeaded};

use cy_comp::{Plan, Wiring};
use cy_fuse::Overflow;
use cy_msg::{PlayList, Text};
use cy_trace::{Trace, TraceComponent};

// Whether a component goes on at the oldest tuple that is kept.
fn is_oldest(overflow: Overflow) -> bool
    ensures { result ≡ is_oldest overflow }
{
    matches!(overflow, Overflow::Oldest)
}

// Whether one of these components goes on at the oldest tuple that is kept.
fn some_oldest(plans: &[Plan]) -> bool
    ensures { result ≡ list_any (λ p. is_oldest p.overflow) plans.now }
{
    plans.iter().any(|plan| is_oldest(plan.overflow))
}

// The version of the form in which these components are told of.
fn version_of(plans: &[Plan]) -> u32
    ensures { result ≡ version_of plans.now }
{
    if some_oldest(plans) { 2 } else { 1 }
}

// Whether two texts are the same.
fn is_same_text(one: &Text, other: &Text) -> bool
    ensures { Decides result (one.now ≡ other.now) }
{
    *one == *other
}

// Whether two components go on alike.
fn goes_alike(one: Overflow, other: Overflow) -> bool
    ensures { Decides result (one ≡ other) }
{
    match (one, other) {
        (Overflow::Newest, Overflow::Newest) | (Overflow::Oldest, Overflow::Oldest) => true,
        _ => false,
    }
}

// Whether a component is told of by its name and its overflow.
fn is_told(plan: &Plan, told: &TraceComponent) -> bool
    ensures { Decides result (IsNamed plan.now told.now) }
{
    is_same_text(&told.name, &plan.name) && goes_alike(told.overflow, plan.overflow)
}

// Whether these components are told of, each in its turn.
fn are_told(plans: &[Plan], told: &[TraceComponent]) -> bool
    ensures { Decides result (AreNamed plans.now told.now) }
{
    if told.len() != plans.len() {
        return false;
    }
    for component in 0..plans.len() {
        if !is_told(&plans[component], &told[component]) {
            return false;
        }
    }
    true
}

/// Whether a trace is one of these components, in the version that is due, and of so many messages
/// that were played and shadowed.
pub(crate) fn is_headed(wiring: &Wiring, list: &PlayList, trace: &Trace) -> bool
    ensures { Decides result (IsHeaded wiring.now.plans (length list.now.tokens) list.now.shadowed
        trace.now) }
{
    let plans = wiring.plans.as_slice();
    trace.version == version_of(plans)
        && trace.played as usize == list.tokens.as_slice().len()
        && trace.shadowed == list.shadowed
        && are_told(plans, trace.components.as_slice())
}
