// How many entries a run can come to have.
ghost use Rattle.std.specs.Prelude.{◌≡◌, ◌<◌, ◌≤◌, ◌*◌, ◌==◌, ℕ, Some};
ghost use Rattle.std.specs.Prelude.{length, map, sum, position, slice_get};
ghost use Rattle.cy_comp.specs.declared.plan.Plan.{Plan};
ghost use Rattle.wake_core.specs.Run.{routes_of};
ghost use Rattle.wake_core.specs.Planned.{planned as planned_entries, planned_count, source_of};
ghost use Rattle.wake_core.specs.Planned.{counts_from, first_reader};

use cy_comp::{Plan, Wiring};

/// The most entries that a world keeps: arrivals, calls and messages, together.
pub const MOST_PLANNED: u64 = 16_777_216;

/// The entries that a run comes to have, where so many messages are played on each channel:
/// arrivals, calls and messages, together. It takes no memory.
pub fn planned(wiring: &Wiring, counts: &[u32]) -> u64
    requires { length counts.now ≡ length wiring.now.names }
    ensures { result ≡ planned_entries (routes_of wiring.now.plans) counts.now }
{
    planned_arrivals(wiring, counts)
        + planned_calls(wiring, counts)
        + planned_messages(wiring, counts)
}

// The arrivals at all components.
fn planned_arrivals(wiring: &Wiring, counts: &[u32]) -> u64
    requires { length counts.now ≡ length wiring.now.names }
    ensures sum { result ≡ sum (map (λ x. sum (map (planned_count (routes_of wiring.now.plans)
        counts.now) x.readers)) (routes_of wiring.now.plans)) }
    ensures most { result ≤ length wiring.now.plans * 17179869180 }
{
    let mut sum = 0;
    for plan in wiring.plans.as_slice() {
        sum += planned_at(wiring, counts, plan.readers.as_slice());
    }
    sum
}

// The calls of all components.
fn planned_calls(wiring: &Wiring, counts: &[u32]) -> u64
    requires { length counts.now ≡ length wiring.now.names }
    ensures sum { result ≡ sum (map (λ x. planned_count (routes_of wiring.now.plans) counts.now
        (first_reader x)) (routes_of wiring.now.plans)) }
    ensures most { result ≤ length wiring.now.plans * 4294967295 }
{
    let mut sum = 0;
    for plan in wiring.plans.as_slice() {
        sum += u64::from(planned_on(wiring, counts, plan.readers.as_slice()[0]));
    }
    sum
}

/// The messages on all channels.
pub(crate) fn planned_messages(wiring: &Wiring, counts: &[u32]) -> u64
    requires { length counts.now ≡ length wiring.now.names }
    ensures sum { result ≡ counts_from (routes_of wiring.now.plans) counts.now 0
        (length counts.now) }
    ensures most { result ≤ 1024 * 4294967295 }
{
    let mut sum = 0;
    for channel in 0..wiring.names.count() {
        sum += u64::from(planned_on(wiring, counts, channel));
    }
    sum
}

/// The arrivals at a component with these readers.
pub(crate) fn planned_at(wiring: &Wiring, counts: &[u32], readers: &[u32]) -> u64
    requires counts { length counts.now ≡ length wiring.now.names }
    requires few { length readers.now ≤ 4 }
    requires known { (j r : ℕ) → slice_get readers.now j ≡ Some r → r < length counts.now }
    ensures sum { result
        ≡ sum (map (planned_count (routes_of wiring.now.plans) counts.now) readers.now) }
    ensures most { result ≤ 17179869180 }
{
    let mut sum = 0;
    for channel in readers {
        sum += u64::from(planned_on(wiring, counts, *channel));
    }
    sum
}

/// The messages on a channel: as many as on the channel that triggers the component which writes
/// it, and so on up to one that no component writes.
pub(crate) fn planned_on(wiring: &Wiring, counts: &[u32], channel: u32) -> u32
    requires counts { length counts.now ≡ length wiring.now.names }
    requires known { channel < length counts.now }
    ensures { result ≡ planned_count (routes_of wiring.now.plans) counts.now channel }
{
    let mut from = channel;
    for _ in 0..wiring.plans.as_slice().len() {
        from = source(wiring, from);
    }
    counts[from as usize]
}

// The channel that triggers the component which writes this one; the channel itself where no
// component writes it.
fn source(wiring: &Wiring, channel: u32) -> u32
    requires { channel < length wiring.now.names }
    ensures source { result ≡ source_of (routes_of wiring.now.plans) channel }
    ensures known { result < length wiring.now.names }
{
    let plans = wiring.plans.as_slice();
    match writer(plans, channel) {
        Some(component) => plans[component].readers.as_slice()[0],
        None => channel,
    }
}

// The first component that writes a channel.
fn writer(plans: &[Plan], channel: u32) -> Option<usize>
    ensures { result ≡ position (λ (p : Plan). p.out == channel) plans.now }
{
    plans.iter().position(|plan| plan.out == channel)
}
