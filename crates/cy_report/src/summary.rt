// The line that tells what a run came to.
ghost use Rattle.std.specs.Prelude.{◌≡◌, ◌≤◌, ◌++◌, length, IfOk, IfErr, OnOk};
ghost use Rattle.std.specs.Fmt.{decimal};
ghost use Rattle.wake_core.specs.LawfulRun.{Quiet};
ghost use Rattle.wake_core.specs.Plain.{played_count};
ghost use Rattle.wake_core.specs.Rest.{run_shown};
ghost use Rattle.wake_core.specs.Run.{routes_of};
ghost use Rattle.wake_core.specs.WorldOf.{plain_of};
ghost use Rattle.cy_trace.specs.CallCount.{calls_from};
ghost use Rattle.cy_report.specs.Summary.{counts_line};
ghost use Rattle.cy_report.specs.Summary.{lawful_line as line_of_lawful, summary_line as line_of};

use cy_comp::{Plan, Wiring};
use cy_msg::Bytes;
use cy_trace::{TraceError, calls_of};
use std::alloc::Global;
use std::io;
use std::io::Write;
use wake_core::World;

// How many calls there were.
fn calls_in(world: &World, plans: &[Plan]) -> u128
    requires quiet { Quiet (plain_of world.now) }
    requires routes { (plain_of world.now).routes ≡ routes_of plans.now }
    requires few { length plans.now ≤ 64 }
    ensures { result ≡ calls_from (run_shown (plain_of world.now)) 0 plans.now }
{
    let mut count = 0;
    for component in 0..plans.len() {
        count += calls_of(world, component as u32).len() as u128;
    }
    count
}

// A count behind what it counts, at the end of others.
fn push_count(to: &mut Vec<u8>, what: &str, count: u128) -> io::Result<()>
    ensures { OnOk result (to.new.items ≡ to.old.items ++ (what.now ++ decimal count)) }
{
    write!(to, "{what}{count}")
}

// The text of a line, at the end of others.
fn push_counts(
    to: &mut Vec<u8>,
    front: &str,
    played: u64,
    shadowed: u32,
    calls: u128,
    written: u64,
) -> io::Result<()>
    ensures { OnOk result (to.new.items
        ≡ to.old.items ++ counts_line front.now played shadowed calls written) }
{
    push_count(to, front, u128::from(played))?;
    push_count(to, ", shadowed ", u128::from(shadowed))?;
    push_count(to, ", calls ", calls)?;
    push_count(to, ", written ", u128::from(written))?;
    to.write_all(b"\n")?;
    Ok(())
}

// The line of these numbers, with these words in front.
fn line_behind(
    alloc: Global,
    front: &str,
    played: u64,
    shadowed: u32,
    calls: u128,
    written: u64,
) -> Result<Bytes, TraceError>
    ensures line { IfOk result (λ b. b ≡ counts_line front.now played shadowed calls written) }
    ensures memory { IfErr result (λ e. e ≡ TraceError.Memory) }
{
    let mut line = Vec::new(alloc);
    match push_counts(&mut line, front, played, shadowed, calls, written) {
        Ok(()) => Ok(Bytes::from_vec(line)),
        // A write to a `Vec` fails for want of memory alone.
        Err(_) => Err(TraceError::Memory),
    }
}

/// The line that tells what a run came to, of a world that was made for this wiring and whose run
/// has come to its end: how many messages were played and how many others were shadowed, how many
/// calls there were, and how many messages the tape has. Its only error is `Memory`.
pub fn summary_line(
    alloc: Global,
    world: &World,
    wiring: &Wiring,
    shadowed: u32,
) -> Result<Bytes, TraceError>
    requires quiet { Quiet (plain_of world.now) }
    requires routes { (plain_of world.now).routes ≡ routes_of wiring.now.plans }
    ensures line { IfOk result (λ b. b ≡ line_of (played_count (plain_of world.now)) shadowed
        (calls_from (run_shown (plain_of world.now)) 0 wiring.now.plans)
        (length (plain_of world.now).tape)) }
    ensures memory { IfErr result (λ e. e ≡ TraceError.Memory) }
{
    let played = u64::from(world.played());
    let calls = calls_in(world, wiring.plans.as_slice());
    let written = world.tape_list().len() as u64;
    line_behind(alloc, "done: played ", played, shadowed, calls, written)
}

/// The same of a run of which a trace was found to tell: the numbers are its own.
pub fn lawful_line(
    alloc: Global,
    played: u64,
    shadowed: u32,
    calls: u128,
    written: u64,
) -> Result<Bytes, TraceError>
    ensures line { IfOk result (λ b. b ≡ line_of_lawful played shadowed calls written) }
    ensures memory { IfErr result (λ e. e ≡ TraceError.Memory) }
{
    line_behind(alloc, "lawful: played ", played, shadowed, calls, written)
}
