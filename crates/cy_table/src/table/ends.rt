// A table is made of a world, and gives a world back.
ghost use Rattle.std.specs.Prelude.{◌≡◌, ◌≤◌, ◌+◌, ◌++◌, ◌∷◌, [], length, vec_len, vec_capacity};
ghost use Rattle.std.specs.Prelude.{IfOk, OnOk};
ghost use Rattle.cy_table.specs.declared.part.Part.TheVariants as part;
ghost use Rattle.wake_core.specs.declared.entries.TheConstants.{MOST_PLANNED};
ghost use Rattle.wake_core.specs.Parts.{AreFit, shown_by};
ghost use Rattle.cy_table.specs.Layout.{yes_or_no};
ghost use Rattle.cy_table.specs.Ends.{AreWords, HaveFewCalls, laid};

use super::hold::state_number;
use crate::boxed_visitor::BoxedVisitor;
use crate::counted_routine::CountedRoutine;
use crate::laws;
use crate::part::{Part, Tape};
use crate::pass::{Pass, TableError};
use crate::table::{FlagTable, stop_number};
use atomic_table::{Refused, Table};
use cy_comp::Routine;
use cy_fuse::Visitor;
use cy_msg::Items;
use std::alloc::Global;
use std::snapshot::Snapshot;
use wake_core::{Parts, World};

impl FlagTable {
    ghost use Rattle.std.specs.Prelude.{ℕ, ◌≡◌, None, length, IfOk};
    ghost use Rattle.wake_core.specs.Rest.{IsAtRest};
    ghost use Rattle.wake_core.specs.WorldOf.{plain_of, to_step};
    ghost use Rattle.wake_core.specs.Parts.{AreFit, shown_by};
    ghost use Rattle.cy_table.specs.Calls.{made_of};
    ghost use Rattle.cy_table.specs.Ends.{IsNew, IsLast, IsLeft};
    ghost use Rattle.cy_table.specs.private.Taking.{HaveRoom};

    /// The table of a world in which nobody holds a croutine or owes anything, and the player's
    /// pass. Its only error is `Memory`, and then the world is given up.
    pub fn new(alloc: Global, world: World) -> Result<(FlagTable, Pass), TableError>
        requires { IsAtRest (plain_of world) }
        ensures { IfOk result (λ r. IsNew world r.0 r.1) }
    {
        laws::table_ends();
        wake_core::laws::threads();
        wake_core::laws::found();
        let key = Snapshot::of(&world);
        let parts = world.apart();
        let words = words_of(alloc, &parts)?;
        let Parts {
            routines,
            visitors,
            tape,
            fixed,
            ..
        } = parts;
        let tape = Tape::new(tape);
        let slots = slots_of(alloc, tape, routines.into_vec(), visitors.into_vec())?;
        match Table::new(alloc, words.as_slice(), slots, &key) {
            Ok((table, seat)) => Ok((FlagTable { table, fixed }, Pass { seat, split_off: 0 })),
            Err(Refused { slots: _ }) => Err(TableError::Memory),
        }
    }

    /// Gives the world back, when no other pass is left and the player has and owes nothing. Its
    /// only error is `Memory`, and then the world is given up.
    pub fn close(self, alloc: Global, pass: Pass) -> Result<World, TableError>
        requires { IsLast self pass }
        ensures left { IfOk result (λ w. IsLeft self pass (plain_of w)) }
        ensures stepped { IfOk result (λ w. (c : ℕ) → to_step w c ≡ None) }
    {
        let taken = Taken::with_room(alloc, self.table.slot_count() / 2)?;
        let parts = self.unpack(pass, taken);
        Ok(parts.together(alloc)?)
    }

    // Takes all out of the slots, into lists with room for it.
    fn unpack(self, pass: Pass, mut taken: Taken) -> Parts
        requires last { IsLast self pass }
        requires room { HaveRoom (length (made_of self).routes) taken }
        ensures fit { AreFit result }
        ensures left { IsLeft self pass (shown_by result) }
    {
        laws::table_ends();
        wake_core::laws::threads();
        wake_core::laws::outside();
        wake_core::laws::limits();
        wake_core::laws::unsent();
        let FlagTable { table, fixed } = self;
        let Pass { seat, split_off: _ } = pass;
        let mut closed = table.close_with(seat);
        let count = closed.slot_count() / 2;
        let Part::Tape(tape) = closed.take(0) else {
            unreachable!()
        };
        for c in 0..count {
            let Part::Routine(routine) = closed.take(2 * c + 1) else {
                unreachable!()
            };
            let Part::Visitor(visitor) = closed.take(2 * c + 2) else {
                unreachable!()
            };
            let kept = routine.into_routine();
            taken.routines.push_reserved(kept);
            let unboxed = visitor.into_visitor();
            taken.visitors.push_reserved(unboxed);
            taken.spent.push_reserved(closed.word(4 * c + 6) == 1);
        }
        let clock = closed.word(1);
        let closing = closed.word(2) == 1;
        let raised = closed.word(4 * count + 4) != 0;
        closed.free();
        let tape = tape.into_messages();
        let played = fixed.played_in(tape.as_slice()) as u32;
        Parts {
            routines: Items::new(taken.routines),
            visitors: Items::new(taken.visitors),
            spent: Items::new(taken.spent),
            tape,
            played,
            clock,
            closing,
            raised,
            fixed,
        }
    }
}

// What is taken out of the slots of components, and their flags.
#[derive(Drop)]
struct Taken {
    routines: Vec<Routine>,
    visitors: Vec<Visitor>,
    spent: Vec<bool>,
}

impl Taken {
    ghost use Rattle.std.specs.Prelude.{IfOk};
    ghost use Rattle.cy_table.specs.private.Taking.{HaveRoom};

    // Nothing yet, with room for so many components.
    fn with_room(alloc: Global, count: usize) -> Result<Self, TableError>
        ensures { IfOk result (λ t. HaveRoom count t) }
    {
        Ok(Taken {
            routines: Vec::with_capacity(alloc, count)?,
            visitors: Vec::with_capacity(alloc, count)?,
            spent: Vec::with_capacity(alloc, count)?,
        })
    }
}

// The words of a world in which no croutine is held and each door is open.
fn words_of(alloc: Global, parts: &Parts) -> Result<Vec<u64>, TableError>
    requires { AreFit parts.now }
    ensures { IfOk result (λ v. AreWords (shown_by parts.now) v.items) }
{
    let routines = parts.routines.as_slice();
    let spent = parts.spent.as_slice();
    let stop = 4 * routines.len() + 4;
    let mut words = vec![in alloc; 0u64; stop + 1]?;
    words[1] = parts.clock;
    words[2] = word_of(parts.closing);
    words[stop] = stop_number(parts.fixed.stop(), parts.raised);
    for c in 0..routines.len() {
        words[4 * c + 5] = state_number(routines[c].state());
        let is_spent = spent[c];
        words[4 * c + 6] = word_of(is_spent);
    }
    Ok(words)
}

// The word that says yes or no.
fn word_of(yes: bool) -> u64
    ensures { result ≡ yes_or_no yes }
{
    u64::from(yes)
}

// Lays the routine and the visitor of a component behind the slots of others.
fn lay(
    alloc: Global,
    slots: &mut Vec<Part>,
    routine: Routine,
    visitor: Visitor,
) -> Result<(), TableError>
    requires calls { length routine.calls ≤ MOST_PLANNED }
    requires room { vec_len slots.old + 2 ≤ vec_capacity slots.old }
    ensures laid { OnOk result (slots.new.items
        ≡ (slots.old.items ++ part.Routine routine ∷ []) ++ part.Visitor visitor ∷ []) }
    ensures room { vec_capacity slots.new ≡ vec_capacity slots.old }
{
    let counted = match CountedRoutine::new(alloc, routine) {
        Ok(counted) => counted,
        Err(error) => {
            drop(visitor);
            return Err(error);
        }
    };
    let boxed = match BoxedVisitor::new(alloc, visitor) {
        Ok(boxed) => boxed,
        Err(error) => {
            drop(counted);
            return Err(error);
        }
    };
    slots.push_reserved(Part::Routine(counted));
    slots.push_reserved(Part::Visitor(boxed));
    Ok(())
}

// The slots: the tape, and of each component its routine and its visitor.
fn slots_of(
    alloc: Global,
    tape: Tape,
    routines: Vec<Routine>,
    visitors: Vec<Visitor>,
) -> Result<Vec<Part>, TableError>
    requires few { length routines.items ≤ 64 }
    requires calls { HaveFewCalls routines.items }
    requires paired { length visitors.items ≡ length routines.items }
    ensures { IfOk result (λ v. v.items ≡ part.Tape tape ∷ laid routines.items visitors.items) }
{
    let mut slots = Vec::with_capacity(alloc, 2 * routines.len() + 1)?;
    slots.push_reserved(Part::Tape(tape));
    let mut visitors = visitors.into_iter();
    for routine in routines {
        let Some(visitor) = visitors.next() else {
            unreachable!()
        };
        lay(alloc, &mut slots, routine, visitor)?;
    }
    Ok(slots)
}
