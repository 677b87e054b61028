// One more token, by what may stand next.
ghost use Rattle.std.specs.Prelude.{◌≡◌, Ok};
ghost use Rattle.cy_text.specs.Form.{after_item, after_colon, after_name, after_sign, after_string};
ghost use Rattle.cy_text.specs.Form.{after_value, all_closed, at_field, at_first_item, at_item};
ghost use Rattle.cy_text.specs.Form.{at_message, at_value, ends_value, finish, placed, after_token};
ghost use Rattle.cy_text.specs.Form.{unread};
ghost use Rattle.cy_msg.specs.Answer.{AnswersFault};
ghost use Rattle.cy_text.specs.Fault.{fault_in};
ghost use Rattle.cy_text.specs.Views.{view_building, view_reading};

use crate::building::{Building, Reading, bad};
use crate::expected::{Expected, Place, Slot};
use crate::fault::Failure;
use crate::token::{Lexeme, Token};
use crate::{BadKind, Tree, Value};
use cy_msg::{Bytes, Text};
use std::alloc::Global;

impl Building {
    // The same messages, with what may stand next.
    fn expecting(self, next: Expected) -> Reading
        ensures { view_reading result ≡ record { building = view_building self; next = next } }
    {
        Reading {
            building: self,
            next,
        }
    }

    // Where a field's name may stand.
    #[tactic(auto, unfolding(crate::specs::Form::at_field))]
    fn at_field(self, alloc: Global, after_field: bool, lexeme: Lexeme) -> Result<Reading, Failure>
        ensures { AnswersFault fault_in view_reading result
            (at_field (view_building self) after_field lexeme) }
    {
        let Lexeme { token, span } = lexeme;
        match token {
            Token::Word(name) => Ok(self.expecting(Expected::AfterName(Slot {
                name,
                start: span.start,
                place: Place::Field,
            }))),
            Token::Close(bracket) => self.closed(alloc, bracket, span),
            Token::Comma | Token::Semicolon if after_field => {
                Ok(self.expecting(Expected::Field(false)))
            }
            Token::Comma | Token::Semicolon | Token::ListClose => {
                Err(bad(BadKind::Close, span.start))
            }
            Token::ListOpen => Err(bad(BadKind::Extension, span.start)),
            _ => Err(bad(BadKind::Name, span.start)),
        }
    }

    // Where a message has to stand, since there is no colon.
    #[tactic(auto, unfolding(crate::specs::Form::at_message))]
    fn at_message(self, alloc: Global, slot: Slot, lexeme: Lexeme) -> Result<Reading, Failure>
        ensures { AnswersFault fault_in view_reading result
            (at_message (view_building self) slot lexeme) }
    {
        let Lexeme { token, span } = lexeme;
        match token {
            Token::Open(bracket) => {
                self.opened(alloc, slot.begun(span.start), bracket, span.start)
            }
            Token::Minus | Token::Whole(_) | Token::Literal(_) | Token::Word(_) | Token::Quote(_) =>
                Err(bad(BadKind::Colon, span.start)),
            _ => Err(bad(BadKind::Value, span.start)),
        }
    }

    // Where a value has to stand, which may be a message.
    #[tactic(auto, unfolding(crate::specs::Form::at_value))]
    fn at_value(self, alloc: Global, slot: Slot, lexeme: Lexeme) -> Result<Reading, Failure>
        ensures { AnswersFault fault_in view_reading result
            (at_value (view_building self) slot lexeme) }
    {
        let Lexeme { token, span } = lexeme;
        let slot = slot.begun(span.start);
        let value = match token {
            Token::Open(bracket) => return self.opened(alloc, slot, bracket, span.start),
            Token::Minus => return Ok(self.expecting(Expected::Signed(slot))),
            Token::Quote(bytes) => {
                return Ok(self.expecting(Expected::Strings(slot, bytes, span.end)));
            }
            Token::Whole(size) => Value::Whole {
                negative: false,
                size,
            },
            Token::Literal(text) => Value::Literal(text),
            Token::Word(text) => Value::Word {
                negative: false,
                text,
            },
            _ => return Err(bad(BadKind::Value, span.start)),
        };
        self.placed(alloc, slot, span.end, value)
    }

    // Behind a name: a colon, a message, or a list of messages.
    #[tactic(auto, unfolding(crate::specs::Form::after_name))]
    fn after_name(self, alloc: Global, slot: Slot, lexeme: Lexeme) -> Result<Reading, Failure>
        ensures { AnswersFault fault_in view_reading result
            (after_name (view_building self) slot lexeme) }
    {
        match lexeme.token {
            Token::Colon => Ok(self.expecting(Expected::AfterColon(slot))),
            Token::ListOpen => {
                Ok(self.expecting(Expected::FirstItem(slot.items(Place::MessageItem))))
            }
            _ => self.at_message(alloc, slot, lexeme),
        }
    }

    // Behind a colon: a list or any other value.
    #[tactic(auto, unfolding(crate::specs::Form::after_colon))]
    fn after_colon(self, alloc: Global, slot: Slot, lexeme: Lexeme) -> Result<Reading, Failure>
        ensures { AnswersFault fault_in view_reading result
            (after_colon (view_building self) slot lexeme) }
    {
        match lexeme.token {
            Token::ListOpen => Ok(self.expecting(Expected::FirstItem(slot.items(Place::Item)))),
            _ => self.at_value(alloc, slot, lexeme),
        }
    }

    // Where an item of a list has to stand.
    #[tactic(auto, unfolding(crate::specs::Form::at_item))]
    fn at_item(self, alloc: Global, slot: Slot, lexeme: Lexeme) -> Result<Reading, Failure>
        ensures { AnswersFault fault_in view_reading result
            (at_item (view_building self) slot lexeme) }
    {
        match slot.place {
            Place::MessageItem => self.at_message(alloc, slot, lexeme),
            Place::Item | Place::Field => self.at_value(alloc, slot, lexeme),
        }
    }

    // Behind the bracket of a list: its end, or an item.
    #[tactic(auto, unfolding(crate::specs::Form::at_first_item))]
    fn at_first_item(self, alloc: Global, slot: Slot, lexeme: Lexeme) -> Result<Reading, Failure>
        ensures { AnswersFault fault_in view_reading result
            (at_first_item (view_building self) slot lexeme) }
    {
        match lexeme.token {
            Token::ListClose => Ok(self.expecting(Expected::Field(true))),
            _ => self.at_item(alloc, slot, lexeme),
        }
    }

    // Behind an item: a comma, or the list's end.
    #[tactic(auto, unfolding(crate::specs::Form::after_item))]
    fn after_item(self, slot: Slot, lexeme: Lexeme) -> Result<Reading, Failure>
        ensures { AnswersFault fault_in view_reading result
            (after_item (view_building self) slot lexeme) }
    {
        match lexeme.token {
            Token::Comma => Ok(self.expecting(Expected::Item(slot))),
            Token::ListClose => Ok(self.expecting(Expected::Field(true))),
            _ => Err(bad(BadKind::Close, lexeme.span.start)),
        }
    }

    // Behind a sign: a number or a word.
    #[tactic(auto, unfolding(crate::specs::Form::after_sign))]
    fn after_sign(self, alloc: Global, slot: Slot, lexeme: Lexeme) -> Result<Reading, Failure>
        ensures { AnswersFault fault_in view_reading result
            (after_sign (view_building self) slot lexeme) }
    {
        let Lexeme { token, span } = lexeme;
        let value = match token {
            Token::Whole(size) => Value::Whole {
                negative: true,
                size,
            },
            Token::Literal(text) => {
                let mut signed = String::from_str(alloc, "-")?;
                signed.push_str(text.as_str())?;
                Value::Literal(Text::from_string(signed))
            }
            Token::Word(text) => Value::Word {
                negative: true,
                text,
            },
            _ => return Err(bad(BadKind::Value, span.start)),
        };
        self.placed(alloc, slot, span.end, value)
    }

    // Behind a string: more of it, or what may follow a value.
    #[tactic(auto, unfolding(crate::specs::Form::after_string))]
    fn after_string(
        self,
        alloc: Global,
        slot: Slot,
        bytes: Bytes,
        end: u32,
        lexeme: Lexeme,
    ) -> Result<Reading, Failure>
        ensures { AnswersFault fault_in view_reading result
            (after_string (view_building self) slot bytes end lexeme) }
    {
        let Lexeme { token, span } = lexeme;
        match token {
            Token::Quote(more) => {
                let mut bytes = bytes.into_vec();
                bytes.extend_from_slice(more.as_slice())?;
                let bytes = Bytes::from_vec(bytes);
                Ok(self.expecting(Expected::Strings(slot, bytes, span.end)))
            }
            token => self
                .placed(alloc, slot, end, Value::Quote(bytes))?
                .after_value(alloc, Lexeme { token, span }),
        }
    }

    // The fields, where no message is open.
    #[tactic(auto, unfolding(crate::specs::Form::all_closed))]
    fn all_closed(self, at: u32) -> Result<Tree, Failure>
        ensures { AnswersFault fault_in (λ tree. tree) result (all_closed (view_building self) at) }
    {
        let Building { frames, fields } = self;
        if frames.is_empty() {
            Ok(fields)
        } else {
            Err(bad(BadKind::Close, at))
        }
    }
}

impl Reading {
    /// Nothing is read.
    pub(crate) fn new(alloc: Global) -> Reading
        ensures { view_reading result ≡ unread }
    {
        Reading {
            building: Building {
                frames: Vec::new(alloc),
                fields: Tree::new(alloc),
            },
            next: Expected::Field(false),
        }
    }

    // Behind a value that is placed.
    #[tactic(auto, unfolding(crate::specs::Form::after_value))]
    fn after_value(self, alloc: Global, lexeme: Lexeme) -> Result<Reading, Failure>
        ensures { AnswersFault fault_in view_reading result
            (after_value (view_reading self) lexeme) }
    {
        let Reading { building, next } = self;
        match next {
            Expected::AfterItem(slot) => building.after_item(slot, lexeme),
            _ => building.at_field(alloc, true, lexeme),
        }
    }

    /// One more token.
    #[tactic(auto, unfolding(crate::specs::Form::after_token))]
    pub(crate) fn after_token(self, alloc: Global, lexeme: Lexeme) -> Result<Reading, Failure>
        ensures { AnswersFault fault_in view_reading result
            (after_token (view_reading self) lexeme) }
    {
        let Reading { building, next } = self;
        match next {
            Expected::Field(after_field) => building.at_field(alloc, after_field, lexeme),
            Expected::AfterName(slot) => building.after_name(alloc, slot, lexeme),
            Expected::AfterColon(slot) => building.after_colon(alloc, slot, lexeme),
            Expected::FirstItem(slot) => building.at_first_item(alloc, slot, lexeme),
            Expected::Item(slot) => building.at_item(alloc, slot, lexeme),
            Expected::AfterItem(slot) => building.after_item(slot, lexeme),
            Expected::Signed(slot) => building.after_sign(alloc, slot, lexeme),
            Expected::Strings(slot, bytes, end) => {
                building.after_string(alloc, slot, bytes, end, lexeme)
            }
        }
    }

    // The end of the text behind a value.
    #[tactic(auto, unfolding(crate::specs::Form::ends_value))]
    fn ends_value(self, at: u32) -> Result<Tree, Failure>
        ensures { AnswersFault fault_in (λ tree. tree) result (ends_value (view_reading self) at) }
    {
        let Reading { building, next } = self;
        match next {
            Expected::Field(_) => building.all_closed(at),
            _ => Err(bad(BadKind::Close, at)),
        }
    }

    /// The end of the text.
    #[tactic(auto, unfolding(crate::specs::Form::finish))]
    pub(crate) fn finish(self, alloc: Global, at: u32) -> Result<Tree, Failure>
        ensures { AnswersFault fault_in (λ tree. tree) result (finish (view_reading self) at) }
    {
        let Reading { building, next } = self;
        match next {
            Expected::Field(_) => building.all_closed(at),
            Expected::AfterItem(_) => Err(bad(BadKind::Close, at)),
            Expected::Strings(slot, bytes, end) => building
                .placed(alloc, slot, end, Value::Quote(bytes))?
                .ends_value(at),
            Expected::AfterName(_)
            | Expected::AfterColon(_)
            | Expected::FirstItem(_)
            | Expected::Item(_)
            | Expected::Signed(_) => Err(bad(BadKind::Value, at)),
        }
    }
}
