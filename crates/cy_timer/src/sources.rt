// Messages and ticks that are still to be played.
ghost use Rattle.std.specs.Prelude.{◌≡◌, length};
ghost use Rattle.cy_timer.specs.private.Sources.{AreRising, IsEarliest, earlier_of};

use crate::ticks::Ticks;
use cy_msg::Token;

// The messages and each timer's ticks that are left.
#[derive(Drop)]
pub(crate) struct Sources<'a> {
    pub messages: &'a [Token],
    pub ticks: Vec<Ticks>,
    pub ghost rising: { AreRising messages.now ticks.items },
}

// The place of the timer that ticks first, and the time.
fn earliest(ticks: &[Ticks]) -> Option<(usize, u64)>
    ensures { IsEarliest ticks.now (length ticks.now) result }
{
    let mut first = None;
    for (place, left) in ticks.iter().enumerate() {
        first = earlier(first, place, left.time());
    }
    first
}

// The earlier one of the first ticks so far and those at a place, if any are left there.
fn earlier(first: Option<(usize, u64)>, place: usize, next: Option<u64>) -> Option<(usize, u64)>
    ensures { result ≡ earlier_of first place next }
{
    match (first, next) {
        (Some((_, before)), Some(time)) if time < before => Some((place, time)),
        (None, Some(time)) => Some((place, time)),
        _ => first,
    }
}

impl Sources<'_> {
    ghost use Rattle.std.specs.Prelude.{◌≡◌, ◌<◌, ◌∷◌, [], length, slice_index_or, IsSome};
    ghost use Rattle.std.specs.Prelude.{MatchOption};
    ghost use Rattle.cy_timer.specs.Merged.{by_time};
    ghost use Rattle.cy_timer.specs.private.Left.{left_of};
    ghost use Rattle.cy_timer.specs.private.Sources.{TakesAt, begin_by, first_time};

    // Takes what is played next.
    pub(crate) fn take_first(&mut self) -> Option<Token>
        ensures { MatchOption result (left_of self.old ≡ []) (λ t. by_time (left_of self.old)
            ≡ t ∷ by_time (left_of self.new)) }
    {
        let Some((place, time)) = earliest(&self.ticks) else {
            return self.take_message();
        };
        if self.begin_by(time) {
            return self.take_message();
        }
        Some(self.take_tick(place))
    }

    // Whether a message is left and doesn't stand behind a time.
    fn begin_by(&self, time: u64) -> bool
        ensures { result ≡ begin_by self.now.messages.now time }
    {
        match self.messages.first() {
            Some(message) => message.time <= time,
            None => false,
        }
    }

    // Takes the next message.
    fn take_message(&mut self) -> Option<Token>
        ensures messages { MatchOption result (self.old.messages.now ≡ [])
            (λ t. self.old.messages.now ≡ t ∷ self.new.messages.now) }
        ensures ticks { self.new.ticks.items ≡ self.old.ticks.items }
    {
        let (message, rest) = self.messages.split_first()?;
        self.messages = rest;
        Some(*message)
    }

    // Takes the next tick of the timer at a place.
    fn take_tick(&mut self, place: usize) -> Token
        requires there { place < length self.old.ticks.items }
        requires some { IsSome (first_time (slice_index_or self.old.ticks.items place [])) }
        ensures messages { self.new.messages.now ≡ self.old.messages.now }
        ensures ticks { TakesAt self.old.ticks.items place result self.new.ticks.items }
    {
        self.ticks[place].take()
    }
}
