// How long a thread looks for what it waits for before it sleeps. No clause rests on it.
use std::sync::atomic::Ordering::SeqCst;
use std::sync::atomic::{AtomicBool, AtomicU64};
use std::{hint, thread};

// How many looks are one try of a processor. They take some tens of microseconds, more than the
// next message does to come where the player has to wait for a processor of the machine first.
pub(crate) const LOOKS: u32 = 6_000;

// After how many looks each time it is asked whether the player is to run.
const TURN: u32 = 20;

// How many tries are left out at most after one in vain. Where calls stay long, each try of the
// player takes a processor of the machine from a call, and those that wait for that call fall
// asleep meanwhile: so tries are to be seldom there.
const MOST_LEFT_OUT: u64 = 1_023;

// As many are left out after three in vain; where more are, calls count as long.
const LOST_BEYOND: u64 = 7;

// A sleep and a wake take longer than most calls, so a thread looks first. Where other programs
// keep the machine busy, or calls are long, looks are in vain, and in the way of those that are
// waited for: so one try is left out after one in vain, and more each time if the next one is too.
#[derive(Drop)]
pub(crate) struct Patience {
    left_out: AtomicU64,
    span: AtomicU64,
}

impl Patience {
    pub(crate) const fn new() -> Self {
        Patience {
            left_out: AtomicU64::new(0),
            span: AtomicU64::new(0),
        }
    }

    // Whether to look this time. One thread alone asks, and says how it ended.
    pub(crate) fn may_look(&self) -> bool {
        let left = self.left_out.load(SeqCst);
        if left > 0 {
            self.left_out.store(left - 1, SeqCst);
        }
        left == 0
    }

    // It found what it looked for.
    pub(crate) fn win(&self) {
        if self.span.load(SeqCst) > 0 {
            self.span.store(0, SeqCst);
        }
    }

    // It looked in vain.
    pub(crate) fn lose(&self) {
        let span = self.span.load(SeqCst);
        self.leave_out(span.saturating_mul(2).saturating_add(1).min(MOST_LEFT_OUT));
    }

    // It won't look any more, or hardly.
    pub(crate) fn give_up(&self) {
        self.leave_out(MOST_LEFT_OUT);
    }

    fn leave_out(&self, span: u64) {
        self.span.store(span, SeqCst);
        self.left_out.store(span, SeqCst);
    }

    // Whether its last tries were in vain, four at least: a hiccup of the machine makes one or two
    // fail where calls are short.
    pub(crate) fn is_lost(&self) -> bool {
        self.span.load(SeqCst) > LOST_BEYOND
    }
}

// After a look of a processor, by its number. A player that was called may have to run where this
// processor does, since there may be more threads than the machine has processors, so it is let go
// first. Else no turn is given away: where other programs keep the machine busy, each may take
// milliseconds.
pub(crate) fn after_look(look: u32, player_is_due: &AtomicBool) {
    if look % TURN == TURN - 1 && player_is_due.load(SeqCst) {
        thread::yield_now();
    } else {
        hint::spin_loop();
    }
}
