// Calling a component at once on what a fetch finds.
ghost use Rattle.std.specs.Prelude.{◌≡◌};
ghost use Rattle.wake_core.specs.private.NextCall.{next_found, MayCall, answer_on, called_on};

use cy_comp::{Outcome, Routine};
use cy_fuse::Visitor;
use cy_msg::Tuple;

/// Fetches for a routine, and calls its component on what is found: none comes exactly where
/// nothing is.
#[inline(always)]
pub(crate) fn call_next(routine: &mut Routine, visitor: &Visitor) -> Option<Outcome>
    requires { MayCall routine.old visitor.now }
    ensures answer { result ≡ answer_on routine.old (next_found routine.old visitor.now) }
    ensures called { routine.new ≡ called_on routine.old (next_found routine.old visitor.now) }
{
    if visitor.roles() == 1 {
        call_on_one(routine, visitor)
    } else {
        call_on_any(routine, visitor)
    }
}

// The same at a component of one reader, as most are: its message goes among the calls by itself,
// and not in a tuple with room for four.
#[inline(always)]
fn call_on_one(routine: &mut Routine, visitor: &Visitor) -> Option<Outcome>
    requires one { visitor.now.roles ≡ 1 }
    requires may { MayCall routine.old visitor.now }
    ensures answer { result ≡ answer_on routine.old (next_found routine.old visitor.now) }
    ensures called { routine.new ≡ called_on routine.old (next_found routine.old visitor.now) }
{
    let mut cursor = routine.cursor();
    let (message, position, tail) = visitor.try_fetch_one(&mut cursor)?;
    Some(routine.took(Tuple::One(message), position, tail))
}

// The same at a component of any number of readers. It stands by itself, and leaves the registers
// to those of one.
#[inline(never)]
fn call_on_any(routine: &mut Routine, visitor: &Visitor) -> Option<Outcome>
    requires { MayCall routine.old visitor.now }
    ensures answer { result ≡ answer_on routine.old (next_found routine.old visitor.now) }
    ensures called { routine.new ≡ called_on routine.old (next_found routine.old visitor.now) }
{
    let mut cursor = routine.cursor();
    let (tuple, position, tail) = visitor.try_fetch(&mut cursor)?;
    Some(routine.took(tuple, position, tail))
}
