// The ticks of one timer.
ghost use Rattle.std.specs.Prelude.{◌≡◌, ◌≤◌, ◌∷◌, length, IsSome};
ghost use Rattle.cy_timer.specs.Ticks.{ticks_between};
ghost use Rattle.cy_timer.specs.private.Sources.{first_time};

use crate::Timer;
use crate::timer::{first_number, period_of, tick_count};
use cy_msg::Token;
use std::marker::Model;

// The ticks of a timer that are left. Contracts see them as their list.
#[derive(Drop)]
pub(crate) struct Ticks {
    channel: u32,
    period: u64,
    // Which multiple of the period the next one stands at.
    number: u64,
    // The next one's number among the ticks.
    seq: u32,
    left: u32,
}

impl Model for Ticks {
    ghost use Rattle.std.specs.Prelude.{List};
    ghost use Rattle.cy_msg.specs.declared.token.Token.{Token};
    ghost use Rattle.cy_timer.specs.private.Sources.{CanTick, ticks_left};

    ghost Value = { List Token };

    ghost view = { λ s. ticks_left s.channel s.period s.number s.seq s.left };

    ghost invariant = { λ s. CanTick s.period s.number s.seq s.left };
}

impl Ticks {
    // All ticks of a timer from a time to another.
    pub(crate) fn new(timer: &Timer, begin: u64, end: u64) -> Self
        requires some { 1 ≤ timer.now.interval }
        requires order { begin ≤ end }
        requires few { length (ticks_between begin end timer.now) ≤ 4194304 }
        ensures { result ≡ ticks_between begin end timer.now }
    {
        let period = period_of(timer.interval);
        Ticks {
            channel: timer.channel,
            period,
            number: first_number(period, begin, end),
            seq: 1,
            left: tick_count(timer.interval, begin, end) as u32,
        }
    }

    // The time of the next one.
    pub(crate) fn time(&self) -> Option<u64>
        ensures { result ≡ first_time self.now }
    {
        if self.left == 0 {
            return None;
        }
        Some(self.number * self.period)
    }

    // Takes the next one.
    pub(crate) fn take(&mut self) -> Token
        requires { IsSome (first_time self.old) }
        ensures { self.old ≡ result ∷ self.new }
    {
        let tick = Token {
            channel: self.channel,
            seq: self.seq,
            time: self.number * self.period,
            whole: Some(i64::from(self.seq)),
            origin: None,
        };
        self.number += 1;
        self.seq += 1;
        self.left -= 1;
        tick
    }
}
