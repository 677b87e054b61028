// A world taken apart, and put together again.
ghost use Rattle.std.specs.Prelude.{◌≡◌, map, IfOk, IfErr};
ghost use Rattle.wake_core.specs.declared.error.CoreError.TheVariants as CoreError;
ghost use Rattle.wake_core.specs.private.Sent.{sent_count as sent_by_calls, IsCounted};
ghost use Rattle.wake_core.specs.private.Sent.{AreCounted};

use super::opening::{Unheld, held_by_nobody};
use crate::{CoreError, Parts, World};
use cy_comp::Routine;
use cy_msg::Items;
use std::alloc::Global;

impl World {
    ghost use Rattle.std.specs.Prelude.{◌≡◌};
    ghost use Rattle.wake_core.specs.Rest.{IsAtRest, at_rest};
    ghost use Rattle.wake_core.specs.WorldOf.{plain_of};
    ghost use Rattle.wake_core.specs.Parts.{shown_by, AreFit};

    /// Takes a world apart in which nobody holds a croutine or owes anything. It takes no memory.
    pub fn apart(self) -> Parts
        requires { IsAtRest (plain_of self) }
        ensures shown { shown_by result ≡ at_rest (plain_of self) }
        ensures fit { AreFit result }
    {
        Parts {
            routines: Items::new(self.routines),
            visitors: Items::new(self.visitors),
            spent: Items::new(self.spent),
            tape: self.tape,
            played: self.played,
            clock: self.clock,
            closing: self.closing,
            raised: self.raised,
            fixed: self.fixed,
        }
    }
}

impl Parts {
    ghost use Rattle.std.specs.Prelude.{◌≡◌, IfOk, IfErr};
    ghost use Rattle.wake_core.specs.declared.error.CoreError.TheVariants as CoreError;
    ghost use Rattle.wake_core.specs.Parts.{AreFit, IsTogether};

    /// Puts a world together of parts that fit. Its only error is `Memory`, and then the parts are
    /// given up.
    pub fn together(self, alloc: Global) -> Result<World, CoreError>
        requires { AreFit self }
        ensures world { IfOk result (λ w. IsTogether self w) }
        ensures memory { IfErr result (λ e. e ≡ CoreError.Memory) }
    {
        let size = self.routines.as_slice().len();
        let sent = sent_by(alloc, self.routines.as_slice())?;
        let Unheld {
            found,
            held,
            hands,
            owed,
        } = held_by_nobody(alloc, size, 4 * size)?;
        Ok(World {
            found,
            sent,
            held,
            hands,
            owed,
            fixed: self.fixed,
            visitors: self.visitors.into_vec(),
            routines: self.routines.into_vec(),
            spent: self.spent.into_vec(),
            tape: self.tape,
            played: self.played,
            clock: self.clock,
            closing: self.closing,
            raised: self.raised,
        })
    }
}

// How many outputs of each component were sent.
fn sent_by(alloc: Global, routines: &[Routine]) -> Result<Vec<u32>, CoreError>
    requires { AreCounted routines.now }
    ensures sent { IfOk result (λ v. v.items ≡ map sent_by_calls routines.now) }
    ensures memory { IfErr result (λ e. e ≡ CoreError.Memory) }
{
    let mut sent = Vec::with_capacity(alloc, routines.len())?;
    for routine in routines {
        sent.push(sent_count(routine))?;
    }
    Ok(sent)
}

// How many outputs of a component were sent: those of all its calls, but for one that waits.
fn sent_count(routine: &Routine) -> u32
    requires { IsCounted routine.now }
    ensures { result ≡ sent_by_calls routine.now }
{
    let made = routine.calls().outputs();
    if routine.pending().is_some() {
        (made - 1) as u32
    } else {
        made as u32
    }
}
