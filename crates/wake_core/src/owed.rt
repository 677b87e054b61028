// What a thread still has to do for the last message that it sent.
ghost use Rattle.std.specs.Prelude.{◌≡◌, ◌==◌, position};

use cy_msg::Token;

/// What a thread still has to do for the last message that it sent.
#[derive(Drop)]
pub(crate) struct Owed {
    /// The message.
    pub(crate) token: Token,
    /// How many readers of its channel, the last ones, it still has to fill.
    pub(crate) fills: usize,
    /// The components that it triggered, in the order of their fills.
    pub(crate) news: Vec<u32>,
    /// How many of these it has looked at.
    pub(crate) looked: usize,
    /// Those of them whose flag it has to clear.
    pub(crate) clearing: Vec<u32>,
}

impl Owed {
    ghost use Rattle.std.specs.Prelude.{◌≡◌, true};
    ghost use Rattle.wake_core.specs.Plain.{lists};
    ghost use Rattle.wake_core.specs.private.Owing.{MayLookAt, LookedAt, IsTakenOut};

    /// The thread looks at the first of its news, which is this component. One that waits is to
    /// have its flag cleared.
    pub(crate) fn look(&mut self, component: u32, waits: bool)
        requires { MayLookAt self.old }
        ensures { LookedAt component waits self.old self.new }
    {
        self.looked += 1;
        if waits {
            self.clearing.push_reserved(component);
        }
    }

    /// A component's flag is no longer to be cleared.
    pub(crate) fn take_out(&mut self, component: u32)
        requires { lists component self.old.clearing.items ≡ true }
        ensures { IsTakenOut component self.old self.new }
    {
        match place_of(self.clearing.as_slice(), component) {
            Some(place) => {
                self.clearing.remove(place);
            }
            None => unreachable!(),
        }
    }
}

// The first place of a component.
fn place_of(list: &[u32], component: u32) -> Option<usize>
    ensures { result ≡ position (λ c. c == component) list.now }
{
    list.iter().position(|c| *c == component)
}
