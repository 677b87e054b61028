// The messages of a tuple, and what is put out from them.
ghost use Rattle.std.specs.Prelude.{◌≡◌, [], ◌∷◌, ◌+ℤ◌, ◌≤ℤ◌, ◌^◌, neg_ℤ, pos, option_map};
ghost use Rattle.cy_msg.specs.Tuple.{messages_of, first_of};
ghost use Rattle.cy_comp.specs.Step.{passed_at, passes as passing, makes as making, second_of};
ghost use Rattle.cy_comp.specs.Step.{third_of, values_of, sum_of, held_sum};

use crate::window::held;
use crate::{Out, Outcome};
use cy_msg::{Token, Tuple};

/// The message that triggered a call.
pub(crate) fn first_message(tuple: &Tuple) -> Token
    ensures { result ≡ first_of tuple.now }
{
    match *tuple {
        Tuple::One(first)
        | Tuple::Two(first, _)
        | Tuple::Three(first, _, _)
        | Tuple::Four(first, _, _, _) => first,
    }
}

/// The message of the second reader, or of the only one.
pub(crate) fn second_message(tuple: &Tuple) -> Token
    ensures { result ≡ second_of tuple.now }
{
    match *tuple {
        Tuple::One(second)
        | Tuple::Two(_, second)
        | Tuple::Three(_, second, _)
        | Tuple::Four(_, second, _, _) => second,
    }
}

/// The message of the third reader, or of the last one where there are fewer.
pub(crate) fn third_message(tuple: &Tuple) -> Token
    ensures { result ≡ third_of tuple.now }
{
    match *tuple {
        Tuple::One(third)
        | Tuple::Two(_, third)
        | Tuple::Three(_, _, third)
        | Tuple::Four(_, _, third, _) => third,
    }
}

/// A message passed on at a time.
pub(crate) fn passed_on_at(time: u64, message: &Token) -> Out
    ensures { result ≡ passed_at time message.now }
{
    Out {
        time,
        whole: message.whole,
        origin: message.origin,
    }
}

/// A message passed on at its own time.
pub(crate) fn passes(message: &Token) -> Outcome
    ensures { result ≡ passing message.now }
{
    Outcome::Emit(Some(passed_on_at(message.time, message)))
}

/// A value of its own, at the time of a message.
pub(crate) fn makes(message: &Token, value: i64) -> Outcome
    ensures { result ≡ making message.now value }
{
    Outcome::Emit(Some(Out {
        time: message.time,
        whole: Some(value),
        origin: None,
    }))
}

/// The sum of a tuple's values, where each of its messages has one, held within its type.
pub(crate) fn sum_of_values(tuple: &Tuple) -> Option<i64>
    ensures { result ≡ option_map held_sum (values_of (messages_of tuple.now)) }
{
    exact_sum(tuple).map(held)
}

// The sum itself.
fn exact_sum(tuple: &Tuple) -> Option<i128>
    ensures { result ≡ option_map sum_of (values_of (messages_of tuple.now)) }
{
    Some(match *tuple {
        Tuple::One(a) => sum_of_four(a.whole?, 0, 0, 0),
        Tuple::Two(a, b) => sum_of_four(a.whole?, b.whole?, 0, 0),
        Tuple::Three(a, b, c) => sum_of_four(a.whole?, b.whole?, c.whole?, 0),
        Tuple::Four(a, b, c, d) => sum_of_four(a.whole?, b.whole?, c.whole?, d.whole?),
    })
}

// The sum of four values, in a type that holds it.
fn sum_of_four(a: i64, b: i64, c: i64, d: i64) -> i128
    ensures { result ≡ sum_of (a ∷ b ∷ c ∷ d ∷ []) }
{
    sum_of_two(a, b) + sum_of_two(c, d)
}

// The sum of two values.
fn sum_of_two(a: i64, b: i64) -> i128
    ensures sum { result ≡ a +ℤ b }
    ensures low { neg_ℤ (pos (2 ^ 64)) ≤ℤ result }
    ensures high { result ≤ℤ pos (2 ^ 64) }
{
    i128::from(a) + i128::from(b)
}
