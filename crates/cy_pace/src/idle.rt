// Where processors rest, and how the player keeps pace with them.
use crate::RunError;
use crate::pace::{BITS, Pace, bits_of, lowest};
use crate::patience::{LOOKS, Patience};
use crate::place::{ASLEEP, AWAKE, AWAY, LOOKING, Place};
use crossbeam_utils::CachePadded;
use std::alloc::{AllocError, Global};
use std::hint;
use std::marker::Model;
use std::sync::atomic::Ordering::SeqCst;
use std::sync::atomic::{AtomicBool, AtomicU64};
use std::sync::{Mutex, Wait};
use std::thread::Parker;
use std::time::Duration;

// How many milliseconds the player rests before it looks again, and how often it does so before it
// plays on.
const PAUSE: u64 = 10;

const PAUSES: u32 = 100;

// The same where it waits for the first processors, and has a deputy for those that don't come: it
// rests so often after the last one that came.
const SHORT_PAUSE: u64 = 5;

const SHORT_PAUSES: u32 = 4;

// A context for each component that may be its first, and one for those that serve none.
const CONTEXTS: usize = BITS + 1;

// How many looks are one try of the player. Calls that take longer are long ones.
const PLAYER_LOOKS: u32 = 1_000;

/// The places of the processors of a run. Contracts see it as their number.
///
/// A processor that has nothing to do any more looks for news, if no other one of its context is
/// awake, and else rests until it is called: by a message that triggers a component of its context
/// while no other processor of that context is awake, or by the end of the play. Where calls take
/// long, a message calls one for each component that it triggers. When the play has ended,
/// processors go as soon as all that came rest, so none goes while another one may still send to
/// it.
///
/// The player begins when all have come, for which it waits a bounded time, since there may be no
/// thread to be had. Where it is ahead of them by some messages it waits until the components have
/// fetched what came to them, a second at most, so that they skip little: it looks for that, or
/// rests at once where calls take long.
///
/// The player may have a deputy, which serves components on the player's thread while no processor
/// came for them. As long as there are such components, the player waits before each message until
/// none has anything to do, neither those nor the others.
#[derive(Drop)]
pub struct Idle {
    places: Vec<CachePadded<Place>>,
    door: Mutex<()>,
    // How often there was news for each context, by the first component that it serves; the last is
    // for those that serve none.
    news: Vec<CachePadded<AtomicU64>>,
    // .. and for the deputy.
    deputy_news: AtomicU64,
    pace: Pace,
    player: Parker,
    resting: AtomicBool,
    player_is_due: AtomicBool,
    patience: Patience,
}

impl Model for Idle {
    ghost use Rattle.std.specs.Prelude.{ℕ, vec_len};

    ghost Value = { ℕ };

    ghost view = { λ s. vec_len s.places };
}

impl Idle {
    ghost use Rattle.std.specs.Prelude.{◌≡◌, ◌<◌, ◌+◌, ◌⊎◌, IfOk};

    /// A place for each of so many processors. Its only error is `Memory`.
    pub fn new(alloc: Global, processors: u32) -> Result<Self, RunError>
        ensures { IfOk result (λ s. s ≡ processors) }
    {
        let mut places = Vec::with_capacity(alloc, processors as usize)?;
        for _ in 0..processors {
            places.push_reserved(CachePadded::new(Place::new()));
        }
        Ok(Idle {
            places,
            door: Mutex::new(()),
            news: no_news(alloc)?,
            deputy_news: AtomicU64::new(0),
            pace: Pace::new(alloc)?,
            player: Parker::new(),
            resting: AtomicBool::new(false),
            player_is_due: AtomicBool::new(false),
            patience: Patience::new(),
        })
    }

    /// The player has a deputy for these components. It is said before any processor comes.
    pub fn depute(&self, components: &[u32]) {
        self.pace.depute(bits_of(components));
    }

    /// The components that are left to the deputy, as a mask: no processor came for them.
    pub fn unserved(&self) -> u64 {
        self.pace.unserved()
    }

    /// A processor comes, which serves these components.
    pub fn enter(&self, me: u32, components: &[u32])
        requires { me < self.now }
    {
        let serves = bits_of(components);
        self.places[me as usize].come(serves);
        self.pace.serve(serves);
        self.player.unpark();
    }

    /// How often there was news so far for the context of a processor, which asks before it scans.
    pub fn news(&self, me: u32) -> u64
        requires { me < self.now }
    {
        self.news_at(self.places[me as usize].context())
    }

    fn news_at(&self, context: usize) -> u64 {
        match self.news.get(context) {
            Some(count) => count.load(SeqCst),
            None => 0,
        }
    }

    // There is news for the contexts of these components, once for each.
    fn count_news(&self, components: u64) {
        let mut left = components;
        for place in &self.places {
            if place.serves(left) != 0 {
                left &= !place.serves(left);
                if let Some(count) = self.news.get(place.context()) {
                    count.fetch_add(1, SeqCst);
                }
            }
        }
    }

    /// Components have something to do, as a mask. It is said when they were filled and before they
    /// are looked at: so one that has done it by then is resumed once more, and closed.
    pub fn open(&self, components: u64) {
        if components != 0 {
            self.pace.open(components);
        }
    }

    /// There is news for components, which were looked at: a processor that is awake scans them
    /// again before it rests, since it compares the news; where none is awake one that rests is
    /// called. So is the player, where some are left to its deputy.
    pub fn tell<R: Wait>(&self, rt: &R, components: u64) {
        if components != 0 {
            self.count_news(components);
            self.call_for(rt, components);
            self.tell_deputy(components);
        }
    }

    fn tell_deputy(&self, components: u64) {
        if components & self.unserved() != 0 {
            self.deputy_news.fetch_add(1, SeqCst);
            if self.resting.load(SeqCst) {
                self.call_player();
            }
        }
    }

    /// A component has nothing to do any more.
    pub fn close(&self, component: u32) {
        self.pace.close(component);
        self.tell_player();
    }

    /// It sleeps until the clock is past this time, in nanoseconds.
    pub fn sleep(&self, component: u32, until: u64) {
        self.pace.sleep(component, until);
        self.tell_player();
    }

    /// It sleeps no more.
    pub fn wake(&self, component: u32) {
        self.pace.wake(component);
    }

    fn tell_player(&self) {
        if self.resting.load(SeqCst) && self.pace.busy() == 0 {
            self.call_player();
        }
    }

    fn call_player(&self) {
        self.player_is_due.store(true, SeqCst);
        self.player.unpark();
    }

    /// The player set the clock, which is news for those whose sleep that ended.
    pub fn heed_clock<R: Wait>(&self, rt: &R, clock: u64) {
        let due = self.pace.tick(clock);
        self.tell(rt, due);
    }

    /// The player has set the run closing: all processors are to find that. It doesn't wait for
    /// them any more, so one is called for each component that has news.
    pub fn tell_closing<R: Wait>(&self, rt: &R) {
        self.patience.give_up();
        for count in &self.news {
            count.fetch_add(1, SeqCst);
        }
        let _door = self.door.lock(rt);
        self.call_all(AWAKE);
    }

    // Whether some processor does this.
    fn is_any(&self, state: u64) -> bool {
        for place in &self.places {
            if place.is(state) {
                return true;
            }
        }
        false
    }

    fn call_all(&self, state: u64) {
        for place in &self.places {
            place.call(state);
        }
    }

    // Calls processors that rest for components: one for each context that has nobody awake; or,
    // where calls take long, one for each component.
    fn call_for<R: Wait>(&self, rt: &R, components: u64) {
        let each = self.patience.is_lost();
        if self.left_to_resting(components, each) == 0 {
            return;
        }
        let _door = self.door.lock(rt);
        let left = self.left_to_resting(components, each);
        let left = self.call_those(LOOKING, left, each);
        self.call_those(ASLEEP, left, each);
    }

    // The components that processors serve which rest, and, but where one is called for each, none
    // that is awake.
    fn left_to_resting(&self, components: u64, each: bool) -> u64 {
        let mut awake = 0;
        let mut resting = 0;
        for place in &self.places {
            let serves = place.serves(components);
            if place.rests() {
                resting |= serves;
            } else if !each && place.is(AWAKE) {
                awake |= serves;
            }
        }
        resting & !awake
    }

    // Calls those that rest so, and tells which components are left.
    fn call_those(&self, state: u64, components: u64, each: bool) -> u64 {
        let mut left = components;
        for place in &self.places {
            let serves = place.serves(left);
            if serves != 0 && place.is(state) {
                place.call(AWAKE);
                let called = if each { lowest(serves) } else { serves };
                left &= !called;
            }
        }
        left
    }

    /// The player waits until all processors came, for a second at most. Where it has a deputy it
    /// waits for those alone that come one soon after another.
    pub fn await_all<R: Wait>(&self, rt: &R, has_deputy: bool) {
        let pause = if has_deputy { SHORT_PAUSE } else { PAUSE };
        let mut pauses = if has_deputy { SHORT_PAUSES } else { PAUSES };
        for _ in 0..PAUSES {
            if pauses == 0 || self.have_come() {
                return;
            }
            let away = self.count_away();
            self.player.park_timeout(rt, Duration::from_millis(pause));
            if self.count_away() == away {
                pauses -= 1;
            }
        }
    }

    fn count_away(&self) -> u32 {
        let mut away = 0u32;
        for place in &self.places {
            if place.is(AWAY) {
                away = away.saturating_add(1);
            }
        }
        away
    }

    // Whether all processors come while it looks.
    fn have_come(&self) -> bool {
        for _ in 0..LOOKS {
            if !self.is_any(AWAY) {
                return true;
            }
            hint::spin_loop();
        }
        false
    }

    /// Whether components wake when the clock is at this time.
    pub fn is_due(&self, clock: u64) -> bool {
        self.pace.due(clock) != 0
    }

    /// By how many messages the player is ahead after one message more, which triggers a component
    /// or wakes one: by this one, where none is busy. Where it is ahead by the lead it waits for
    /// that.
    pub fn keep_pace<R: Wait>(&self, rt: &R, ahead: u32, lead: u32) -> u32
        ensures { (result ≡ 1) ⊎ ((ahead < lead) × (result ≡ ahead + 1)) }
    {
        if self.player_is_due.load(SeqCst) {
            self.player_is_due.store(false, SeqCst);
        }
        if self.pace.busy() == 0 {
            return 1;
        }
        if ahead < lead {
            return ahead.saturating_add(1);
        }
        let _turns = self.await_turn(rt, self.deputy_news());
        1
    }

    /// The components that have something to do, as a mask.
    pub fn busy(&self) -> u64 {
        self.pace.busy()
    }

    /// How often there was news so far for the deputy, which asks before it scans.
    pub fn deputy_news(&self) -> u64 {
        self.deputy_news.load(SeqCst)
    }

    /// The player waits until no component is busy, or until there is news for its deputy, other
    /// than was seen. Whether one of both came before a second was over: a gate may hold a
    /// component until another one is called.
    pub fn await_turn<R: Wait>(&self, rt: &R, seen: u64) -> bool {
        if self.turns_soon(seen) {
            return true;
        }
        self.resting.store(true, SeqCst);
        let turns = self.turns(rt, seen);
        self.resting.store(false, SeqCst);
        turns
    }

    fn is_turn(&self, seen: u64) -> bool {
        self.pace.busy() == 0 || self.deputy_news() != seen
    }

    // Whether it comes while the player looks.
    fn turns_soon(&self, seen: u64) -> bool {
        if self.patience.may_look() {
            for _ in 0..PLAYER_LOOKS {
                if self.is_turn(seen) {
                    self.patience.win();
                    return true;
                }
                hint::spin_loop();
            }
            self.patience.lose();
        }
        false
    }

    // .. or while it rests.
    fn turns<R: Wait>(&self, rt: &R, seen: u64) -> bool {
        for _ in 0..PAUSES {
            if self.is_turn(seen) {
                return true;
            }
            self.call_for(rt, self.pace.busy());
            self.player.park_timeout(rt, Duration::from_millis(PAUSE));
        }
        false
    }

    /// Whether there is news while a processor, which has nothing to do any more, looks for it. It
    /// does so where no other one that serves components of this one is awake.
    pub fn hears_soon(&self, me: u32, seen: u64) -> bool
        requires { me < self.now }
    {
        let place: &Place = &self.places[me as usize];
        match self.news.get(place.context()) {
            Some(news) => {
                self.is_last_awake(place) && place.hears_soon(news, seen, &self.player_is_due)
            }
            None => false,
        }
    }

    /// A processor that scanned in vain rests until it is called, and then stays. It goes, which is
    /// true, where all that came rest and it found the play closing.
    pub fn rest<R: Wait>(&self, rt: &R, me: u32, seen: u64, closing: bool) -> bool
        requires { me < self.now }
    {
        let place: &Place = &self.places[me as usize];
        if !self.comes_to_rest(rt, place, seen, closing) {
            return false;
        }
        place.await_call(rt, &self.player_is_due);
        if place.is(AWAKE) {
            return false;
        }
        if !closing {
            place.begin(AWAKE);
        }
        closing
    }

    // Whether no other processor that serves components of this one is awake.
    fn is_last_awake(&self, place: &Place) -> bool {
        let serves = place.serves(u64::MAX);
        let mut awake = 0u32;
        for other in &self.places {
            if other.serves(serves) != 0 && other.is(AWAKE) {
                awake = awake.saturating_add(1);
            }
        }
        awake <= 1
    }

    // One processor more rests, where there is no news that it has not seen. It says so before it
    // compares the news, and who has news counts it before it looks who rests: so one of the two
    // sees the other. The last one calls all to go, when the run is closing.
    fn comes_to_rest<R: Wait>(&self, rt: &R, place: &Place, seen: u64, closing: bool) -> bool {
        let _door = self.door.lock(rt);
        place.begin(LOOKING);
        if self.news_at(place.context()) != seen {
            place.begin(AWAKE);
            return false;
        }
        if closing && !self.is_any(AWAKE) {
            self.call_all(AWAY);
        }
        true
    }
}

// No news yet, for any context.
fn no_news(alloc: Global) -> Result<Vec<CachePadded<AtomicU64>>, AllocError> {
    let mut news = Vec::with_capacity(alloc, CONTEXTS)?;
    for _ in 0..CONTEXTS {
        news.push_reserved(CachePadded::new(AtomicU64::new(0)));
    }
    Ok(news)
}
