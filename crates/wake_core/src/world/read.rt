// What a world tells of itself.
ghost use Rattle.std.specs.Prelude.{◌≡◌};
ghost use Rattle.cy_comp.specs.Calls.{output};

use crate::World;
use cy_comp::{Out, Routine};
use cy_msg::{Stop, Token};

impl World {
    ghost use Rattle.std.specs.Prelude.{◌≡◌, ◌<◌, ℕ, Some, None, length, map, slice_get};
    ghost use Rattle.cy_msg.specs.declared.token.Token.{Token};
    ghost use Rattle.cy_fuse.specs.Fusion.{Arrival};
    ghost use Rattle.wake_core.specs.Plain.{played_count, unsent_of};
    ghost use Rattle.wake_core.specs.WorldOf.{plain_of, to_step};
    ghost use Rattle.wake_core.specs.WorldCalls.{IsRoutineOf};

    /// The number of the reader that each message came to which arrived at a component, in order.
    pub fn arrival_roles(&self, component: u32) -> &[u8]
        requires { component < length (plain_of self.now).routes }
        ensures arrivals { result.now
            ≡ map (λ (a : Arrival). a.0) ((plain_of self.now).arrivals component) }
        ensures roles { (n r : ℕ) → slice_get result.now n ≡ Some r → r < 4 }
    {
        self.visitors[component as usize].arrival_roles()
    }

    /// The routine of a component that isn't still to be stepped.
    pub fn routine(&self, component: u32) -> &Routine
        requires component { component < length (plain_of self.now).routes }
        requires stepped { to_step self.now component ≡ None }
        ensures { IsRoutineOf component (plain_of self.now) result.now }
    {
        &self.routines[component as usize]
    }

    /// The messages in the order in which they were sent.
    pub fn tape_list(&self) -> &[Token]
        ensures tape { result.now ≡ (plain_of self.now).tape }
        ensures known { (n : ℕ) (t : Token) → slice_get result.now n ≡ Some t
            → t.channel < length (plain_of self.now).counts }
    {
        self.tape.as_slice()
    }

    /// How many messages were played.
    pub fn played(&self) -> u32
        ensures { result ≡ played_count (plain_of self.now) }
    {
        self.played
    }

    /// The stop that it was made with, if there is one.
    pub fn given(&self) -> Option<Stop>
        ensures { result ≡ (plain_of self.now).stop }
    {
        self.fixed.stop()
    }

    /// The clock, in nanoseconds.
    pub fn clock(&self) -> u64
        ensures { result ≡ (plain_of self.now).clock }
    {
        self.clock
    }

    /// Whether a component's flag is spent. A clear flag says that there is news for it.
    pub fn spent(&self, component: u32) -> bool
        requires { component < length (plain_of self.now).routes }
        ensures { result ≡ (plain_of self.now).spent component }
    {
        self.spent[component as usize]
    }

    /// Whether all was played and the run is closing.
    pub fn closing(&self) -> bool
        ensures { result ≡ (plain_of self.now).closing }
    {
        self.closing
    }

    /// The output of a component that is still to be sent, as a message of its channel; none where
    /// all were sent.
    #[inline(always)]
    pub(crate) fn unsent(&self, component: u32) -> Option<Token>
        requires component { component < length (plain_of self.now).routes }
        requires stepped { to_step self.now component ≡ None }
        ensures { result ≡ unsent_of (plain_of self.now) component }
    {
        let index = component as usize;
        let out = self.routines[index].pending()?;
        Some(output_as(self.fixed.out(index), self.sent[index] + 1, out))
    }
}

// An output as a message of a channel, with its number there.
fn output_as(channel: u32, seq: u32, out: Out) -> Token
    ensures { result ≡ output channel seq out }
{
    Token {
        channel,
        seq,
        time: out.time,
        whole: out.whole,
        origin: out.origin,
    }
}
