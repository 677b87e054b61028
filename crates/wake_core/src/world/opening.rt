// The opening world.
ghost use Rattle.std.specs.Prelude.{◌≡◌, ◌≤◌, IfOk, IfErr, length, map, max, min};
ghost use Rattle.wake_core.specs.declared.error.CoreError.TheVariants as CoreError;
ghost use Rattle.wake_core.specs.declared.entries.TheConstants.{MOST_PLANNED};
ghost use Rattle.wake_core.specs.Run.{routes_of};
ghost use Rattle.wake_core.specs.Planned.{planned as planned_entries};
ghost use Rattle.wake_core.specs.private.Opening.{first_visitor, first_routine, IsNothing};
ghost use Rattle.wake_core.specs.private.Opening.{AreNothing};
ghost use Rattle.wake_core.specs.private.Opening.{AreUnheld};

use crate::entries::{planned_at, planned_messages, planned_on};
use crate::fixed::Fixed;
use crate::found::Found;
use crate::owed::Owed;
use crate::phase::Hand;
use crate::{CoreError, MOST_PLANNED, World, planned};
use cy_comp::{Routine, Wiring, outcomes_are_answers};
use cy_fuse::Visitor;
use cy_msg::{Stop, Token};
use std::alloc::Global;

// The threads: the player and 64 others.
const THREADS: usize = 65;

impl World {
    ghost use Rattle.std.specs.Prelude.{◌≡◌, ◌≤◌, ◌↔◌, ℕ, length, IfOk, IfErr, IsErrOf};
    ghost use Rattle.wake_core.specs.declared.error.CoreError.TheVariants as CoreError;
    ghost use Rattle.wake_core.specs.declared.entries.TheConstants.{MOST_PLANNED};
    ghost use Rattle.wake_core.specs.Run.{routes_of};
    ghost use Rattle.wake_core.specs.Planned.{planned as planned_entries};
    ghost use Rattle.wake_core.specs.Fields.{IsWithin};
    ghost use Rattle.wake_core.specs.WorldOf.{plain_of, to_step};
    ghost use Rattle.wake_core.specs.WorldCalls.{IsNewWorld, IsTooMany};

    /// The opening world of a wiring, for a list with so many messages on each channel, and with a
    /// stop or none. It takes all the memory that a run needs. `TooMany` says that more entries are
    /// planned than a world keeps, and how many.
    pub fn new(
        alloc: Global,
        wiring: &Wiring,
        counts: &[u32],
        stop: Option<Stop>,
    ) -> Result<Self, CoreError>
        requires counts { length counts.now ≡ length wiring.now.names }
        requires within { IsWithin (routes_of wiring.now.plans) counts.now stop }
        ensures opening { IfOk result (λ w.
            IsNewWorld (routes_of wiring.now.plans) counts.now stop (plain_of w) (to_step w)) }
        ensures too_many { (count : ℕ) → IsErrOf result (CoreError.TooMany count)
            ↔ IsTooMany (routes_of wiring.now.plans) counts.now count }
    {
        let count = planned(wiring, counts);
        if count > MOST_PLANNED {
            return Err(CoreError::TooMany { count });
        }
        World::opened(alloc, wiring, counts, stop)
    }

    // The opening world, where no more entries are planned than a world keeps.
    fn opened(
        alloc: Global,
        wiring: &Wiring,
        counts: &[u32],
        stop: Option<Stop>,
    ) -> Result<Self, CoreError>
        requires counts { length counts.now ≡ length wiring.now.names }
        requires limited { planned_entries (routes_of wiring.now.plans) counts.now ≤ MOST_PLANNED }
        requires within { IsWithin (routes_of wiring.now.plans) counts.now stop }
        ensures opening { IfOk result (λ w.
            IsNewWorld (routes_of wiring.now.plans) counts.now stop (plain_of w) (to_step w)) }
        ensures memory { IfErr result (λ e. e ≡ CoreError.Memory) }
    {
        outcomes_are_answers();
        let fixed = Fixed::new(alloc, wiring, counts, stop)?;
        let size = wiring.plans.as_slice().len();
        let visitors = visitors_for(alloc, wiring, counts)?;
        let routines = routines_for(alloc, wiring, counts)?;
        let spent = vec![in alloc; true; size]?;
        let sent = vec![in alloc; 0; size]?;
        let tape = Vec::with_capacity(alloc, planned_messages(wiring, counts) as usize)?;
        let Unheld {
            found,
            held,
            hands,
            owed,
        } = held_by_nobody(alloc, size, 4 * size)?;
        Ok(World {
            fixed,
            visitors,
            routines,
            found,
            spent,
            sent,
            held,
            hands,
            owed,
            tape,
            played: 0,
            clock: 0,
            closing: false,
            raised: false,
        })
    }
}

// What a world has of its threads while nobody holds a croutine or owes anything.
#[derive(Drop)]
pub(super) struct Unheld {
    pub(super) found: Vec<Option<Found>>,
    pub(super) held: Vec<bool>,
    pub(super) hands: Vec<Option<Hand>>,
    pub(super) owed: Vec<Owed>,
}

// The same for so many components, with room for so many of them in each list.
pub(super) fn held_by_nobody(alloc: Global, size: usize, room: usize) -> Result<Unheld, CoreError>
    ensures unheld { IfOk result (λ u.
        AreUnheld size room u.found.items u.held.items u.hands.items u.owed.items) }
    ensures memory { IfErr result (λ e. e ≡ CoreError.Memory) }
{
    Ok(Unheld {
        found: vec![in alloc; None; size]?,
        held: vec![in alloc; false; size]?,
        hands: vec![in alloc; None; THREADS]?,
        owed: owed_for(alloc, room)?,
    })
}

// The visitors, before anything arrived: each keeps as many tuples as its component's queue, or as
// many as can come, where these are fewer, goes on as its component does where one isn't kept any
// more, and has room for all arrivals.
fn visitors_for(alloc: Global, wiring: &Wiring, counts: &[u32]) -> Result<Vec<Visitor>, CoreError>
    requires counts { length counts.now ≡ length wiring.now.names }
    requires limited { planned_entries (routes_of wiring.now.plans) counts.now ≤ MOST_PLANNED }
    ensures visitors { IfOk result (λ v. v.items ≡ map
        (first_visitor (routes_of wiring.now.plans) counts.now) (routes_of wiring.now.plans)) }
    ensures memory { IfErr result (λ e. e ≡ CoreError.Memory) }
{
    let mut visitors = Vec::with_capacity(alloc, wiring.plans.as_slice().len())?;
    for plan in wiring.plans.as_slice() {
        let readers = plan.readers.as_slice();
        let queue = kept_of(plan.queue, planned_on(wiring, counts, readers[0]));
        let spare = planned_at(wiring, counts, readers) as u32;
        let roles = readers.len() as u8;
        visitors.push(Visitor::prepare(alloc, queue, roles, plan.overflow, spare)?)?;
    }
    Ok(visitors)
}

// How many tuples are kept, of as many as can come: a buffer keeps one at least.
fn kept_of(queue: u32, coming: u32) -> u32
    ensures kept { result ≡ max 1 (min queue coming) }
    ensures some { 1 ≤ result }
{
    let least = if coming < queue { coming } else { queue };
    if least == 0 { 1 } else { least }
}

// The routines, before any call, each with room for all calls.
fn routines_for(alloc: Global, wiring: &Wiring, counts: &[u32]) -> Result<Vec<Routine>, CoreError>
    requires { length counts.now ≡ length wiring.now.names }
    ensures routines { IfOk result (λ v. v.items ≡ map
        (first_routine (routes_of wiring.now.plans) counts.now) (routes_of wiring.now.plans)) }
    ensures memory { IfErr result (λ e. e ≡ CoreError.Memory) }
{
    let mut routines = Vec::with_capacity(alloc, wiring.plans.as_slice().len())?;
    for plan in wiring.plans.as_slice() {
        let spare = planned_on(wiring, counts, plan.readers.as_slice()[0]);
        routines.push(Routine::new(alloc, &plan.kind, spare)?)?;
    }
    Ok(routines)
}

// What the threads owe, which is nothing, with room for so many components in each list.
fn owed_for(alloc: Global, room: usize) -> Result<Vec<Owed>, CoreError>
    ensures owed { IfOk result (λ v. AreNothing room 65 v.items) }
    ensures memory { IfErr result (λ e. e ≡ CoreError.Memory) }
{
    let mut owed = Vec::with_capacity(alloc, THREADS)?;
    for _ in 0..THREADS {
        owed.push(nothing(alloc, room)?)?;
    }
    Ok(owed)
}

// What a thread owes that owes nothing.
fn nothing(alloc: Global, room: usize) -> Result<Owed, CoreError>
    ensures owes { IfOk result (λ o. IsNothing room o) }
    ensures memory { IfErr result (λ e. e ≡ CoreError.Memory) }
{
    Ok(Owed {
        token: BLANK,
        fills: 0,
        news: Vec::with_capacity(alloc, room)?,
        looked: 0,
        clearing: Vec::with_capacity(alloc, room)?,
    })
}

// A message that stands for none.
const BLANK: Token = Token {
    channel: 0,
    seq: 0,
    time: 0,
    whole: None,
    origin: None,
};
