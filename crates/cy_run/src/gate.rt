// What a processor passes before each call of a component.
ghost use Rattle.std.specs.Prelude.{◌≡◌, ◌≢◌, length, None};
ghost use Rattle.cy_table.specs.Calls.{component_of, routine_of, to_step};

use cy_table::Hold;
use std::sync::Wait;
use std::sync::atomic::{AtomicBool, Ordering};
use std::thread;

/// What a processor passes before each call of a component.
pub trait Gate: Sync {
    /// Before a call of a component, which has the croutine `hold` in hand. The calls of a
    /// component are numbered from 1. It may wait, and changes nothing of the run.
    fn before_call<R: Wait>(&self, rt: &R, component: u32, call: u32, hold: &Hold)
        requires in_hand { component_of hold.now ≡ component }
        requires fetched { to_step hold.now ≢ None }
        requires numbered { call ≡ length (routine_of hold.now).calls };
}

/// A gate that does nothing.
#[derive(Drop)]
pub struct OpenGate;

impl Gate for OpenGate {
    fn before_call<R: Wait>(&self, _rt: &R, _component: u32, _call: u32, _hold: &Hold) {}
}

/// A gate that holds the first call of one component until the first call of another is entered, or
/// until it has looked for that so many times.
#[derive(Drop)]
pub struct MeetGate {
    first: u32,
    second: u32,
    turns: u32,
    entered: AtomicBool,
    met: AtomicBool,
}

impl MeetGate {
    /// The gate that holds the first call of component `first` until that of `second` is entered,
    /// for at most so many turns. A turn is one look that finds it not entered.
    pub fn new(first: u32, second: u32, turns: u32) -> Self {
        MeetGate {
            first,
            second,
            turns,
            entered: AtomicBool::new(false),
            met: AtomicBool::new(false),
        }
    }

    /// Whether the first call of `first`, while it was held, found that of `second` entered. That
    /// one may have been entered before it, and have returned by then; a [`PairGate`] tells whether
    /// both are in hand at once.
    pub fn met(&self) -> bool {
        self.met.load(Ordering::SeqCst)
    }

    // Holds the first call of `first`.
    fn hold(&self) {
        for _ in 0..self.turns {
            if self.entered.load(Ordering::SeqCst) {
                self.met.store(true, Ordering::SeqCst);
                return;
            }
            thread::yield_now();
        }
    }
}

impl Gate for MeetGate {
    fn before_call<R: Wait>(&self, _rt: &R, component: u32, call: u32, _hold: &Hold) {
        if call != 1 {
            return;
        }
        if component == self.second {
            self.entered.store(true, Ordering::SeqCst);
        }
        if component == self.first {
            self.hold();
        }
    }
}

/// A gate that holds the first call of each of two components until that of the other is held, or
/// until it has looked for that so many times: so it tells whether both are in hand at once.
#[derive(Drop)]
pub struct PairGate {
    first: u32,
    second: u32,
    turns: u32,
    holds_first: AtomicBool,
    holds_second: AtomicBool,
    paired: AtomicBool,
}

impl PairGate {
    /// The gate that holds the first calls of components `first` and `second` for each other, each
    /// for at most so many turns. A turn is one look that finds the other one not held.
    pub fn new(first: u32, second: u32, turns: u32) -> Self {
        PairGate {
            first,
            second,
            turns,
            holds_first: AtomicBool::new(false),
            holds_second: AtomicBool::new(false),
            paired: AtomicBool::new(false),
        }
    }

    /// Whether both calls were held at once. A processor that makes both, one after the other,
    /// never holds both.
    pub fn paired(&self) -> bool {
        self.paired.load(Ordering::SeqCst)
    }

    // Holds one call, which shows itself until it is let go, but for one that met the other.
    fn hold(&self, mine: &AtomicBool, other: &AtomicBool) {
        mine.store(true, Ordering::SeqCst);
        for _ in 0..self.turns {
            if other.load(Ordering::SeqCst) {
                self.paired.store(true, Ordering::SeqCst);
                return;
            }
            thread::yield_now();
        }
        mine.store(false, Ordering::SeqCst);
    }
}

impl Gate for PairGate {
    fn before_call<R: Wait>(&self, _rt: &R, component: u32, call: u32, _hold: &Hold) {
        if call != 1 {
            return;
        }
        if component == self.first {
            self.hold(&self.holds_first, &self.holds_second);
        } else if component == self.second {
            self.hold(&self.holds_second, &self.holds_first);
        }
    }
}
