// What the slots of the table hold.
use crate::boxed_visitor::BoxedVisitor;
use crate::counted_routine::CountedRoutine;
use cy_msg::Token;
use std::marker::Model;

/// What a slot holds. It is exchanged whole, so what is long in it is behind a pointer.
#[derive(Drop)]
pub enum Part {
    /// What belongs here is with the thread that took it.
    Away,
    /// The routine of a component.
    Routine(CountedRoutine),
    /// The visitor of a component.
    Visitor(BoxedVisitor),
    /// The messages that were sent.
    Tape(Tape),
}

/// The messages that were sent, in order. Contracts see it as a `TapeView`.
#[derive(Drop)]
pub struct Tape {
    messages: Vec<Token>,
}

impl Model for Tape {
    ghost use Rattle.std.specs.Prelude.{vec_capacity};
    ghost use Rattle.cy_table.specs.Seats.{TapeView};

    ghost Value = { TapeView };

    ghost view = { λ t. record { messages = t.messages.items; room = vec_capacity t.messages } };
}

impl Tape {
    ghost use Rattle.std.specs.Prelude.{◌≡◌, ◌<◌, length, vec_capacity};
    ghost use Rattle.cy_table.specs.Steps.{with_message};

    // The tape of these messages, with room for as many as they have.
    pub(crate) fn new(messages: Vec<Token>) -> Self
        ensures { result
            ≡ record { messages = messages.items; room = vec_capacity messages } }
    {
        Tape { messages }
    }

    // Its messages, with their room.
    pub(crate) fn into_messages(self) -> Vec<Token>
        ensures { self ≡ record { messages = result.items; room = vec_capacity result } }
    {
        let Tape { messages } = self;
        messages
    }

    // A message comes onto the tape.
    pub(crate) fn put(&mut self, token: Token)
        requires { length self.old.messages < self.old.room }
        ensures { self.new ≡ with_message self.old token }
    {
        self.messages.push_reserved(token);
    }
}
