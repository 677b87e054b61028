// The place of one processor among those that rest and work. No clause rests on it.
use crate::patience::{LOOKS, Patience, after_look};
use std::sync::Wait;
use std::sync::atomic::Ordering::SeqCst;
use std::sync::atomic::{AtomicBool, AtomicU64};
use std::thread::Parker;

// What a processor does: it is away (it has not come, or has gone), or awake, or rests, and then it
// still looks whether it is called, or sleeps.
pub(crate) const AWAY: u64 = 0;

pub(crate) const AWAKE: u64 = 1;

pub(crate) const LOOKING: u64 = 2;

pub(crate) const ASLEEP: u64 = 3;

// What its processor does, the components that it serves, as a mask, and where it sleeps. It comes
// and begins to rest by itself, and falls asleep; it is called by others, one at a time.
#[derive(Drop)]
pub(crate) struct Place {
    state: AtomicU64,
    serves: AtomicU64,
    parker: Parker,
    patience: Patience,
}

impl Place {
    pub(crate) const fn new() -> Self {
        Place {
            state: AtomicU64::new(AWAY),
            serves: AtomicU64::new(0),
            parker: Parker::new(),
            patience: Patience::new(),
        }
    }

    // Its processor comes, and serves these components.
    pub(crate) fn come(&self, serves: u64) {
        self.serves.store(serves, SeqCst);
        self.state.store(AWAKE, SeqCst);
    }

    // Which of these components its processor serves.
    pub(crate) fn serves(&self, components: u64) -> u64 {
        self.serves.load(SeqCst) & components
    }

    // Its context, by the first component that this serves, or by 64 where it serves none. Contexts
    // share no component.
    pub(crate) fn context(&self) -> usize {
        self.serves.load(SeqCst).trailing_zeros() as usize
    }

    pub(crate) fn is(&self, state: u64) -> bool {
        self.state.load(SeqCst) == state
    }

    pub(crate) fn rests(&self) -> bool {
        self.state.load(SeqCst) >= LOOKING
    }

    // Its processor does this from now on, which doesn't rest.
    pub(crate) fn begin(&self, state: u64) {
        self.state.store(state, SeqCst);
    }

    // A processor that rests is called: it is to be awake, or away.
    pub(crate) fn call(&self, state: u64) {
        if self.rests() && self.state.swap(state, SeqCst) == ASLEEP {
            self.parker.unpark();
        }
    }

    // Its processor, which rests, waits until it is called.
    pub(crate) fn await_call<R: Wait>(&self, rt: &R, player_is_due: &AtomicBool) {
        if self.is_called_soon(player_is_due) {
            return;
        }
        let _called = self
            .state
            .compare_exchange(LOOKING, ASLEEP, SeqCst, SeqCst)
            .is_err();
        for _ in rt.forever() {
            if !self.rests() {
                return;
            }
            self.parker.park(rt);
        }
        unreachable!()
    }

    // Whether its processor is called while it looks.
    fn is_called_soon(&self, player_is_due: &AtomicBool) -> bool {
        if self.patience.may_look() {
            for look in 0..LOOKS {
                if !self.rests() {
                    self.patience.win();
                    return true;
                }
                after_look(look, player_is_due);
            }
            self.patience.lose();
        }
        false
    }

    // Whether there is news, other than was seen, while its processor looks, which stays awake.
    pub(crate) fn hears_soon(
        &self,
        news: &AtomicU64,
        seen: u64,
        player_is_due: &AtomicBool,
    ) -> bool {
        if self.patience.may_look() {
            for look in 0..LOOKS {
                if news.load(SeqCst) != seen {
                    self.patience.win();
                    return true;
                }
                after_look(look, player_is_due);
            }
            self.patience.lose();
        }
        false
    }
}
