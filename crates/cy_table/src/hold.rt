// A croutine in hand.
ghost use Rattle.std.specs.Prelude.{◌≤◌, length};
ghost use Rattle.std.specs.Option.{ForSome};
ghost use Rattle.cy_comp.specs.Routine.{MayTake};
ghost use Rattle.wake_core.specs.declared.entries.TheConstants.{MOST_PLANNED};
ghost use Rattle.cy_table.specs.Hold.{with_found};

use crate::counted_routine::CountedRoutine;
use cy_comp::Outcome;
use cy_msg::{Token, Tuple};

// A tuple that a fetch found, while the component was not stepped on it.
#[derive(Clone, Copy)]
pub struct Found {
    pub(crate) tuple: Tuple,
    pub(crate) position: u64,
    pub(crate) tail: u64,
}

/// A croutine in hand. It has no `Drop`: give it back by `FlagTable::release`. Contracts see its
/// component by `component_of`, the channel that this writes by `channel_of`, its routine, with the
/// call that a fetch made, by `routine_of`, and the tuple on which it is still to be stepped by
/// `to_step`.
pub struct Hold {
    pub(crate) component: u32,
    pub(crate) channel: u32,
    pub(crate) routine: CountedRoutine,
    pub(crate) found: Option<Found>,
    ghost fits: { ForSome found (λ f. MayTake routine f.tuple f.position) },
    ghost few: { length (with_found routine found).calls ≤ MOST_PLANNED },
}

impl Hold {
    ghost use Rattle.std.specs.Prelude.{◌≡◌, length, Some};
    ghost use Rattle.cy_comp.specs.Calls.{last_outcome};
    ghost use Rattle.cy_table.specs.Calls.{component_of, routine_of, to_step, token_of, IsStepped};
    ghost use Rattle.cy_table.specs.Calls.{ShowsTheSame};

    /// The number of its component.
    pub fn component(&self) -> u32
        ensures { result ≡ component_of self.now }
    {
        self.component
    }

    /// How many calls its component has. A call counts from the fetch that gave its tuple.
    pub fn calls(&self) -> u32
        ensures { result ≡ length (routine_of self.now).calls }
    {
        let made = self.routine.calls() as u32;
        match self.found {
            Some(_) => made + 1,
            None => made,
        }
    }

    /// Steps the component on the tuple that its fetch gave, once. The outcome is the one that
    /// stands since the fetch.
    pub fn step(&mut self, tuple: &Tuple) -> Outcome
        requires { to_step self.old ≡ Some tuple.now }
        ensures same { ShowsTheSame self.old self.new }
        ensures stepped { IsStepped self.new }
        ensures outcome { last_outcome (routine_of self.new).kind (routine_of self.new).calls
            ≡ Some result }
    {
        let Some(found) = self.found else {
            unreachable!()
        };
        self.found = None;
        self.routine.took(*tuple, found.position, found.tail)
    }

    /// The output that is to be sent, numbered behind the others of the component; or none where
    /// none waits.
    pub fn token(&self) -> Option<Token>
        requires { IsStepped self.now }
        ensures { result ≡ token_of self.now }
    {
        let out = self.routine.pending()?;
        Some(Token {
            channel: self.channel,
            seq: self.routine.outputs(),
            time: out.time,
            whole: out.whole,
            origin: out.origin,
        })
    }
}
