// What a component keeps, by its class, and what it answers.
ghost use Rattle.std.specs.Prelude.{◌≡◌, option_map};
ghost use Rattle.cy_comp.specs.declared.class.Class.TheVariants as class;
ghost use Rattle.cy_comp.specs.Answers.{answered};
ghost use Rattle.cy_comp.specs.Step.{answer_at, counted as number_with};
ghost use Rattle.cy_comp.specs.private.Class.{Steps};

use crate::messages::{
    first_message, makes, passed_on_at, passes, second_message, sum_of_values, third_message,
};
use crate::window::Window;
use crate::{Answers, CompError, Kind, Out, Outcome};
use cy_msg::Tuple;
use std::alloc::Global;

/// The class of a component, with what it keeps from its earlier calls.
#[derive(Drop)]
pub(crate) enum Class {
    Pass,
    Filter(Bounds),
    Sum,
    Count { calls: u64 },
    Max { greatest: Option<i64> },
    Window(Window),
    Change { passed: Option<i64> },
    Select,
    Hold { delay: u64 },
    Take(Taken),
    External(Outside),
}

/// The values that a filter passes.
#[derive(Clone, Copy, Drop)]
pub(crate) struct Bounds {
    lo: i64,
    hi: i64,
}

/// How many messages are to be passed on, and how many calls there were.
#[derive(Drop)]
pub(crate) struct Taken {
    n: u32,
    calls: u64,
}

/// What a file says for each call, and how many calls there were.
#[derive(Drop)]
pub(crate) struct Outside {
    answers: Answers,
    calls: u64,
}

// The greatest time until which an output is held back.
const LAST_WAKE: u64 = u64::MAX - 1;

impl Class {
    ghost use Rattle.std.specs.Prelude.{◌≡◌, IfOk};
    ghost use Rattle.cy_comp.specs.Body.{new_body};
    ghost use Rattle.cy_comp.specs.private.Class.{body_of, Steps};

    /// The state before the first call.
    pub(crate) fn new(alloc: Global, kind: &Kind) -> Result<Self, CompError>
        ensures { IfOk result (λ c. body_of c ≡ new_body kind.now) }
    {
        Ok(match kind {
            Kind::Pass => Class::Pass,
            Kind::Filter { lo, hi } => Class::Filter(Bounds { lo: *lo, hi: *hi }),
            Kind::Sum => Class::Sum,
            Kind::Count => Class::Count { calls: 0 },
            Kind::Max => Class::Max { greatest: None },
            Kind::Window { n } => Class::Window(Window::new(alloc, *n)?),
            Kind::Change => Class::Change { passed: None },
            Kind::Select => Class::Select,
            Kind::Hold { delay } => Class::Hold { delay: *delay },
            Kind::Take { n } => Class::Take(Taken { n: *n, calls: 0 }),
            Kind::External { answers } => Class::External(Outside {
                answers: answers.copy()?,
                calls: 0,
            }),
        })
    }

    /// Answers to a tuple.
    #[inline(always)]
    pub(crate) fn step(&mut self, tuple: &Tuple) -> Outcome
        ensures { Steps self.old self.new tuple.now result }
    {
        match self {
            Class::Pass => passes(&first_message(tuple)),
            Class::Filter(bounds) => filter(*bounds, tuple),
            Class::Sum => sum(tuple),
            Class::Count { calls } => count(calls, tuple),
            Class::Max { greatest } => max(greatest, tuple),
            Class::Window(window) => sum_window(window, tuple),
            Class::Change { passed } => change(passed, tuple),
            Class::Select => select(tuple),
            Class::Hold { delay } => hold(*delay, tuple),
            Class::Take(taken) => take(taken, tuple),
            Class::External(outside) => answer(outside, tuple),
        }
    }
}

// Passes a message on where its value is in a range.
fn filter(bounds: Bounds, tuple: &Tuple) -> Outcome
    ensures { Steps (class.Filter bounds) (class.Filter bounds) tuple.now result }
{
    let message = first_message(tuple);
    match message.whole {
        Some(value) if bounds.lo <= value && value <= bounds.hi => passes(&message),
        _ => Outcome::Emit(None),
    }
}

// Sums the values of the messages.
fn sum(tuple: &Tuple) -> Outcome
    ensures { Steps class.Sum class.Sum tuple.now result }
{
    match sum_of_values(tuple) {
        Some(sum) => makes(&first_message(tuple), sum),
        None => Outcome::Emit(None),
    }
}

// Counts a call. The count stands still at the greatest value of an output.
fn counted(calls: u64) -> u64
    ensures { result ≡ number_with calls }
{
    calls.saturating_add(1).min(i64::MAX as u64)
}

// Puts out the number of calls.
fn count(calls: &mut u64, tuple: &Tuple) -> Outcome
    ensures { Steps (class.Count calls.old) (class.Count calls.new) tuple.now result }
{
    *calls = counted(*calls);
    makes(&first_message(tuple), *calls as i64)
}

// Puts out the greatest value so far.
fn max(greatest: &mut Option<i64>, tuple: &Tuple) -> Outcome
    ensures { Steps (class.Max greatest.old) (class.Max greatest.new) tuple.now result }
{
    let message = first_message(tuple);
    let Some(value) = message.whole else {
        return Outcome::Emit(None);
    };
    let most = match *greatest {
        Some(before) => before.max(value),
        None => value,
    };
    *greatest = Some(most);
    makes(&message, most)
}

// Puts out the sum of the last values.
fn sum_window(window: &mut Window, tuple: &Tuple) -> Outcome
    ensures { Steps (class.Window window.old) (class.Window window.new) tuple.now result }
{
    let message = first_message(tuple);
    match message.whole {
        Some(value) => makes(&message, window.sum_with(value)),
        None => Outcome::Emit(None),
    }
}

// Passes a message on where its value isn't the one that passed last.
fn change(passed: &mut Option<i64>, tuple: &Tuple) -> Outcome
    ensures { Steps (class.Change passed.old) (class.Change passed.new) tuple.now result }
{
    let message = first_message(tuple);
    let Some(value) = message.whole else {
        return Outcome::Emit(None);
    };
    if let Some(before) = *passed
        && before == value
    {
        return Outcome::Emit(None);
    }
    *passed = Some(value);
    passes(&message)
}

// Passes the message of one of two readers on, as the value of the first one says.
fn select(tuple: &Tuple) -> Outcome
    ensures { Steps class.Select class.Select tuple.now result }
{
    let message = first_message(tuple);
    let Some(value) = message.whole else {
        return Outcome::Emit(None);
    };
    let chosen = if value == 0 {
        second_message(tuple)
    } else {
        third_message(tuple)
    };
    Outcome::Emit(Some(passed_on_at(message.time, &chosen)))
}

// Holds a message back.
fn hold(delay: u64, tuple: &Tuple) -> Outcome
    ensures { Steps (class.Hold delay) (class.Hold delay) tuple.now result }
{
    let message = first_message(tuple);
    let until = message.time.saturating_add(delay).min(LAST_WAKE);
    Outcome::Hold {
        until,
        out: passed_on_at(until, &message),
    }
}

// Passes a message on; the n-th one is the last.
fn take(taken: &mut Taken, tuple: &Tuple) -> Outcome
    ensures { Steps (class.Take taken.old) (class.Take taken.new) tuple.now result }
{
    taken.calls = counted(taken.calls);
    let message = first_message(tuple);
    if taken.calls == u64::from(taken.n) {
        Outcome::Last(Some(passed_on_at(message.time, &message)))
    } else {
        passes(&message)
    }
}

// Puts out what the file says for this call.
fn answer(outside: &mut Outside, tuple: &Tuple) -> Outcome
    ensures { Steps (class.External outside.old) (class.External outside.new) tuple.now result }
{
    outside.calls = counted(outside.calls);
    let time = first_message(tuple).time;
    Outcome::Emit(answer_at(&outside.answers, outside.calls, time))
}

// The answer of a call, put out at a time.
fn answer_at(answers: &Answers, call: u64, time: u64) -> Option<Out>
    ensures { result ≡ option_map (answer_at time) (answered answers.now call) }
{
    let answer = answers.to_call(call)?;
    Some(Out {
        time,
        whole: answer.whole,
        origin: Some(answer.origin),
    })
}
