// Which components have something to do, by which the player keeps pace with them and processors
// find them. It is a hint: it may be behind. No clause rests on it.
ghost use Rattle.std.specs.Prelude.{◌≡◌, ◌^◌, ◌%◌};

use crossbeam_utils::CachePadded;
use std::alloc::{AllocError, Global};
use std::sync::atomic::AtomicU64;
use std::sync::atomic::Ordering::SeqCst;

// A mask has a bit for each component, by its number. There are at most 64; if there were more,
// several would be taken for one.
pub(crate) const BITS: usize = 64;

// The components that are open, those that some processor serves, those that are left to the
// player's deputy, and those that sleep, as masks; the time until which each of these sleeps; and
// the clock.
//
// A component is open from when a message triggered it, or its sleep ended, until it has fetched
// all that its buffer keeps and what it put out of that has opened others.
#[derive(Drop)]
pub(crate) struct Pace {
    open: CachePadded<AtomicU64>,
    served: AtomicU64,
    unserved: AtomicU64,
    asleep: AtomicU64,
    until: Vec<AtomicU64>,
    clock: AtomicU64,
}

impl Pace {
    // Nothing is open.
    pub(crate) fn new(alloc: Global) -> Result<Self, AllocError> {
        let mut until = Vec::with_capacity(alloc, BITS)?;
        for _ in 0..BITS {
            until.push_reserved(AtomicU64::new(0));
        }
        Ok(Pace {
            open: CachePadded::new(AtomicU64::new(0)),
            served: AtomicU64::new(0),
            unserved: AtomicU64::new(0),
            asleep: AtomicU64::new(0),
            until,
            clock: AtomicU64::new(0),
        })
    }

    // The player has a deputy for these components, which no processor serves yet.
    pub(crate) fn depute(&self, components: u64) {
        self.unserved.fetch_or(components, SeqCst);
    }

    // A processor came that serves these components.
    pub(crate) fn serve(&self, components: u64) {
        self.served.fetch_or(components, SeqCst);
        self.unserved.fetch_and(!components, SeqCst);
    }

    // The components that are left to the deputy.
    pub(crate) fn unserved(&self) -> u64 {
        self.unserved.load(SeqCst)
    }

    // These components have something to do.
    pub(crate) fn open(&self, components: u64) {
        self.open.fetch_or(components, SeqCst);
    }

    // A component has nothing to do any more.
    pub(crate) fn close(&self, component: u32) {
        let bit = bit_of(component as usize);
        if self.open.load(SeqCst) & bit != 0 {
            self.open.fetch_and(!bit, SeqCst);
        }
    }

    // A component sleeps until the clock is past this time, which it never is where this is the
    // greatest. Whoever has it in hand says so before it gives it back, and that it is awake before
    // it sends what it held.
    pub(crate) fn sleep(&self, component: u32, until: u64) {
        if let Some(kept) = self.until.get(component as usize % BITS) {
            kept.store(until, SeqCst);
        }
        self.asleep.fetch_or(bit_of(component as usize), SeqCst);
    }

    pub(crate) fn wake(&self, component: u32) {
        self.asleep.fetch_and(!bit_of(component as usize), SeqCst);
    }

    // The clock was set. The components whose sleep that ended, which are open from now on. One
    // that was woken meanwhile may have done all by now, so it isn't opened: nobody would close it.
    pub(crate) fn tick(&self, clock: u64) -> u64 {
        self.clock.store(clock, SeqCst);
        let due = self.due(clock);
        if due != 0 {
            let opened = due & !self.open.fetch_or(due, SeqCst);
            let woken = opened & !self.asleep.load(SeqCst);
            if woken != 0 {
                self.open.fetch_and(!woken, SeqCst);
            }
        }
        due
    }

    // The components whose sleep has ended when the clock is at this time.
    pub(crate) fn due(&self, clock: u64) -> u64 {
        self.due_of(self.asleep.load(SeqCst), clock)
    }

    // Those of them that are in a mask.
    fn due_of(&self, components: u64, clock: u64) -> u64 {
        let mut left = components;
        let mut due = 0;
        for _ in 0..components.count_ones() {
            let first = lowest(left);
            if self.wakes_by(left.trailing_zeros(), clock) {
                due |= first;
            }
            left ^= first;
        }
        due
    }

    // Whether a component that sleeps is to wake when the clock is at this time.
    fn wakes_by(&self, component: u32, clock: u64) -> bool {
        match self.until.get(component as usize) {
            Some(until) => until.load(SeqCst) < clock,
            None => false,
        }
    }

    // The open components that some processor serves and that don't sleep.
    pub(crate) fn busy(&self) -> u64 {
        let open = self.open.load(SeqCst) & self.served.load(SeqCst);
        let asleep = open & self.asleep.load(SeqCst);
        if asleep == 0 {
            return open;
        }
        (open & !asleep) | self.due_of(asleep, self.clock.load(SeqCst))
    }
}

/// The mask of one component, by its number.
pub fn bit_of(component: usize) -> u64
    ensures { result ≡ 2 ^ (component % 64) }
{
    1u64 << (component % BITS)
}

// The mask of several.
pub(crate) fn bits_of(components: &[u32]) -> u64 {
    let mut bits = 0;
    for component in components {
        bits |= bit_of(*component as usize);
    }
    bits
}

// The first component of a mask.
pub(crate) fn lowest(components: u64) -> u64 {
    components & components.wrapping_neg()
}
