// The timers of a wiring.
ghost use Rattle.std.specs.Prelude.{◌≡◌, ◌≤◌, ◌+◌, ◌*◌, ◌/◌, length, IfOk, IsOkUnless};
ghost use Rattle.cy_timer.specs.Ticks.{most_ticks, multiples};
ghost use Rattle.cy_timer.specs.Timers.{timers_of, AreTimers};
ghost use Rattle.cy_timer.specs.private.Sources.{IsFirst};

use crate::TimerError;
use cy_comp::Wiring;
use std::alloc::Global;

// A millisecond in nanoseconds.
const MILLISECOND: u64 = 1_000_000;

/// What gives a tick at each multiple of its interval while messages are played.
#[derive(Clone, Copy, Debug, PartialEq, Eq)]
pub struct Timer {
    /// The number of the channel on which its ticks stand.
    pub channel: u32,
    /// Its interval in milliseconds.
    pub interval: u32,
}

/// The timers of a wiring's components, in the order of the components. Its only error is `Memory`.
pub fn timers(alloc: Global, wiring: &Wiring) -> Result<Vec<Timer>, TimerError>
    ensures timers { IfOk result (λ ts. ts.items ≡ timers_of wiring.now.plans) }
    ensures lawful { IfOk result (λ ts. AreTimers ts.items) }
    ensures only_memory { IsOkUnless result TimerError.Memory }
{
    let mut timers = Vec::new(alloc);
    for plan in wiring.plans.as_slice() {
        if let Some(interval) = plan.interval {
            let channel = plan.readers.as_slice()[0];
            timers.push(Timer { channel, interval })?;
        }
    }
    Ok(timers)
}

/// How many ticks a timer of an interval in milliseconds gives from a time to another, both
/// included and in nanoseconds.
pub fn tick_count(interval: u32, begin: u64, end: u64) -> u64
    requires some { 1 ≤ interval }
    requires order { begin ≤ end }
    ensures count { result ≡ length (multiples (interval * 1000000) begin end) }
    ensures most { result ≤ most_ticks }
{
    let period = period_of(interval);
    end / period + 1 - first_number(period, begin, end)
}

// An interval in nanoseconds.
pub(crate) fn period_of(interval: u32) -> u64
    ensures { result ≡ interval * 1000000 }
{
    u64::from(interval) * MILLISECOND
}

// Which multiple of a period is the first that isn't before `begin`; one is that at most behind
// `end`.
pub(crate) fn first_number(period: u64, begin: u64, end: u64) -> u64
    requires some { 1 ≤ period }
    requires order { begin ≤ end }
    ensures first { IsFirst period begin result }
    ensures most { result ≤ end / period + 1 }
{
    begin.div_ceil(period)
}
