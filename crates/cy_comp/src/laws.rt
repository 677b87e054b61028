// What the components of all classes have in common.
ghost use Rattle.cy_comp.specs.Laws.{OutcomesAreAnswers, HoldsByClass, PositionsRise};

use cy_fuse::fetches_find;

/// Whatever its class, a component answers to a tuple in one of six ways: with nothing, with a
/// message of the tuple, with a value that it makes, with an answer that its class has from a file,
/// with one that it holds back, or with its last.
#[inline(always)]
pub fn outcomes_are_answers()
    ensures { OutcomesAreAnswers }
{}

/// An output is held back exactly where the class of its component says so.
#[inline(always)]
pub fn holds_by_class()
    ensures { HoldsByClass }
{}

/// Lawful calls take their tuples in order, each at most once.
#[inline(always)]
pub fn positions_rise()
    ensures { PositionsRise }
{
    fetches_find();
}
