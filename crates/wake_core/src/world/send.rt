// Sending a message, and filling the readers of its channel.
ghost use Rattle.std.specs.Prelude.{◌≡◌, ◌<◌, [], ◌∷◌, ◌++◌, Some, vec_len, vec_capacity};
ghost use Rattle.wake_core.specs.WorldCalls.{phase_sent};
ghost use Rattle.wake_core.specs.private.Owing.{HasToFill, MayFillFirst, FilledFirst};

use crate::owed::Owed;
use crate::{Hand, Phase, World};
use cy_msg::Token;

impl World {
    ghost use Rattle.std.specs.Prelude.{◌≡◌, ◌≢◌, ◌≤◌, Option, Some, None};
    ghost use Rattle.wake_core.specs.Run.{writes_from};
    ghost use Rattle.wake_core.specs.Events.{Tapes, Sends, Fills, after_tape, after_send};
    ghost use Rattle.wake_core.specs.WorldOf.{plain_of, to_step};
    ghost use Rattle.wake_core.specs.WorldCalls.{MayTape, Taped, MayFill, IsStepped, phase_sent};
    ghost use Rattle.wake_core.specs.WorldCalls.{IsSender};

    /// A message comes onto the tape: the next one of a channel that no component writes, by the
    /// player; or the output of the croutine in hand that is to be sent. The thread has to fill the
    /// readers of its channel then.
    #[inline(always)]
    pub fn tape(&mut self, thread: u32, token: Token)
        requires event { MayTape thread token (plain_of self.old) }
        requires stepped { writes_from 0 (plain_of self.old).routes token.channel ≢ None
            → IsStepped thread (plain_of self.old) (to_step self.old) }
        ensures event { Taped thread token (plain_of self.old) (plain_of self.new) }
        ensures steps { to_step self.new ≡ to_step self.old }
    {
        match self.sender(thread, token.channel) {
            Some(hand) => self.send(thread, hand, token),
            None => self.play(token),
        }
    }

    // The croutine in hand, where it writes this channel.
    fn sender(&self, thread: u32, channel: u32) -> Option<Hand>
        requires { thread ≤ 64 }
        ensures { IsSender thread channel result (plain_of self.now) }
    {
        let hand = self.hands[thread as usize]?;
        if self.fixed.out(hand.croutine as usize) == channel {
            Some(hand)
        } else {
            None
        }
    }

    // The output of the croutine in hand comes onto the tape.
    #[inline(always)]
    fn send(&mut self, thread: u32, hand: Hand, token: Token)
        requires held { (plain_of self.old).hands thread ≡ Some hand }
        requires event { Sends thread hand.croutine (phase_sent (Some hand)) token
            (plain_of self.old)
            (after_send thread hand.croutine (phase_sent (Some hand)) token (plain_of self.old)) }
        requires stepped { to_step self.old hand.croutine ≡ None }
        ensures event { Sends thread hand.croutine (phase_sent (Some hand)) token
            (plain_of self.old) (plain_of self.new) }
        ensures steps { to_step self.new ≡ to_step self.old }
    {
        let croutine = hand.croutine as usize;
        self.routines[croutine].sent();
        self.sent[croutine] += 1;
        self.hands[thread as usize] = Some(after_send(hand));
        let fills = self.fixed.readers(token.channel).len();
        put(
            &mut self.tape,
            &mut self.owed[thread as usize],
            token,
            fills,
        );
    }

    // A message is played.
    fn play(&mut self, token: Token)
        requires { Tapes token (plain_of self.old) (after_tape 0 token (plain_of self.old)) }
        ensures event { Tapes token (plain_of self.old) (plain_of self.new) }
        ensures steps { to_step self.new ≡ to_step self.old }
    {
        self.played += 1;
        let fills = self.fixed.readers(token.channel).len();
        put(&mut self.tape, &mut self.owed[0], token, fills);
    }

    /// The message that a thread sent last arrives at the first reader that it still has to fill.
    /// Where that is the component's first reader, the component joins the thread's news.
    pub fn fill(&mut self, thread: u32, component: u32, role: u8, token: Token)
        requires { MayFill thread component role token (plain_of self.old) }
        ensures event { Fills thread component role (plain_of self.old) (plain_of self.new) }
        ensures steps { to_step self.new ≡ to_step self.old }
    {
        fill_first(&mut self.owed[thread as usize], component, role);
        self.visitors[component as usize].arrive(role, token);
    }
}

// The croutine whose output was sent: a held output is sent in a phase of its own, and in another
// one where it is the last.
fn after_send(hand: Hand) -> Hand
    ensures croutine { result.croutine ≡ hand.croutine }
    ensures phase { result.phase ≡ phase_sent (Some hand) }
{
    let phase = match hand.phase {
        Phase::Checked => Phase::Sending,
        Phase::Stopping => Phase::LastSending,
        _ => Phase::Running,
    };
    Hand { phase, ..hand }
}

// A message comes onto the tape, and a thread has to fill so many readers with it.
#[inline(always)]
fn put(tape: &mut Vec<Token>, owed: &mut Owed, token: Token, fills: usize)
    requires { vec_len tape.old < vec_capacity tape.old }
    ensures tape { tape.new.items ≡ tape.old.items ++ token ∷ [] }
    ensures room { vec_capacity tape.new ≡ vec_capacity tape.old }
    ensures owed { HasToFill token fills owed.old owed.new }
{
    tape.push_reserved(token);
    owed.token = token;
    owed.fills = fills;
    owed.news.clear();
    owed.looked = 0;
}

// The first reader is filled, and its component is told where it is the component's first.
fn fill_first(owed: &mut Owed, component: u32, role: u8)
    requires { MayFillFirst owed.old }
    ensures { FilledFirst component role owed.old owed.new }
{
    owed.fills -= 1;
    if role == 0 {
        owed.news.push_reserved(component);
    }
}
