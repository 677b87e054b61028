// Whether outputs were held back long enough.
ghost use Rattle.std.specs.Prelude.{◌≡◌, nat_lt, max, ◌==◌, Option, Some, None};
ghost use Rattle.std.specs.Prelude.{option_map};
ghost use Rattle.std.specs.Bool.{Decides};
ghost use Rattle.std.specs.List.{find};
ghost use Rattle.cy_verify.specs.private.Passes.{held_on, later_of, is_later, IsApart};
ghost use Rattle.cy_verify.specs.private.Passes.{in_time, held_then};

use cy_comp::Plan;
use cy_msg::Token;

// The component that writes a channel.
fn writer_of(plans: &[Plan], channel: u32) -> Option<&Plan>
    ensures { option_map (λ p. p.now) result ≡ find (λ plan. plan.out == channel) plans.now }
{
    plans.iter().find(|plan| plan.out == channel)
}

// Whether the component that writes a channel holds its outputs back, where one writes it.
fn held_of(plans: &[Plan], channel: u32) -> Option<bool>
    ensures { result ≡ held_on plans.now channel }
{
    let plan = writer_of(plans, channel)?;
    Some(plan.kind.holds_outputs())
}

/// Whether each played message behind an output that was held back has a later time.
pub(crate) fn is_timely(plans: &[Plan], tape: &[Token]) -> bool
    ensures { Decides result (IsApart plans.now tape.now) }
{
    let mut held = None;
    for place in 0..tape.len() {
        let token = tape[place];
        let writer = held_of(plans, token.channel);
        if !is_in_time(writer, token.time, held) {
            return false;
        }
        held = held_then(writer, token.time, held);
    }
    true
}

// Whether a message may have a time behind the latest one that was held back: any may that a
// component puts out.
fn is_in_time(writer: Option<bool>, time: u64, held: Option<u64>) -> bool
    ensures { result ≡ in_time writer time held }
{
    match writer {
        Some(_) => true,
        None => is_later(time, held),
    }
}

// The latest time of what was held back, with one message more.
fn held_then(writer: Option<bool>, time: u64, held: Option<u64>) -> Option<u64>
    ensures { result ≡ held_then writer time held }
{
    match writer {
        Some(true) => Some(latest(held, time)),
        _ => held,
    }
}

// The latest of a time and that before it, where there was any.
fn latest(before: Option<u64>, time: u64) -> u64
    ensures { result ≡ later_of before time }
{
    match before {
        Some(before) => before.max(time),
        None => time,
    }
}

// Whether a time is later than the one before it, where there was any.
fn is_later(time: u64, before: Option<u64>) -> bool
    ensures { result ≡ is_later time before }
{
    match before {
        Some(before) => before < time,
        None => true,
    }
}
