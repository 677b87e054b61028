// A message that came to a reader, in little memory.
ghost use Rattle.std.specs.Prelude.{◌≡◌};

use cy_msg::Token;
use std::marker::Model;

// A message and the number of the reader that it came to, in 32 bytes; a `Token` alone takes 40.
// Contracts see it as an `Arrival`.
#[derive(Clone, Copy)]
pub(crate) struct Arrived {
    time: u64,
    whole: i64,
    channel: u32,
    seq: u32,
    origin: u32,
    has_whole: bool,
    has_origin: bool,
    role: u8,
}

impl Model for Arrived {
    ghost use Rattle.cy_fuse.specs.Fusion.{Arrival};

    ghost Value = { Arrival };

    ghost use Rattle.std.specs.Prelude.{pos};
    ghost use Rattle.cy_fuse.specs.private.Arriving.{given, told, is_told, IsBlank};
    ghost use Rattle.cy_fuse.specs.private.Arriving.{told_back, is_told_back};

    ghost view = { λ a. (
      a.role,
      record {
        channel = a.channel;
        seq = a.seq;
        time = a.time;
        whole = given a.has_whole a.whole;
        origin = given a.has_origin a.origin;
      },
    ) };

    ghost invariant = { λ a. IsBlank a.has_whole a.whole a.has_origin a.origin };

    ghost inverse = { λ v. record {
      time = v.1.time;
      whole = told (pos 0) v.1.whole;
      channel = v.1.channel;
      seq = v.1.seq;
      origin = told 0 v.1.origin;
      has_whole = is_told v.1.whole;
      has_origin = is_told v.1.origin;
      role = v.0;
    } };

    ghost inverse_ok = { λ a blank. λ i. record {
      time = a.time;
      whole = told_back a.has_whole a.whole (pos 0) blank.no_whole i;
      channel = a.channel;
      seq = a.seq;
      origin = told_back a.has_origin a.origin 0 blank.no_origin i;
      has_whole = is_told_back a.has_whole a.whole i;
      has_origin = is_told_back a.has_origin a.origin i;
      role = a.role;
    } };
}

impl Arrived {
    // A message that came to the reader of this number.
    #[inline(always)]
    pub(crate) fn new(role: u8, message: Token) -> Self
        ensures { result ≡ (role, message) }
    {
        Arrived {
            time: message.time,
            whole: message.whole.unwrap_or(0),
            channel: message.channel,
            seq: message.seq,
            origin: message.origin.unwrap_or(0),
            has_whole: message.whole.is_some(),
            has_origin: message.origin.is_some(),
            role,
        }
    }

    // The number of the reader.
    #[inline(always)]
    pub(crate) fn role(&self) -> u8
        ensures { result ≡ self.now.0 }
    {
        self.role
    }

    // The message.
    #[inline(always)]
    pub(crate) fn message(&self) -> Token
        ensures { result ≡ self.now.1 }
    {
        Token {
            channel: self.channel,
            seq: self.seq,
            time: self.time,
            whole: if self.has_whole {
                Some(self.whole)
            } else {
                None
            },
            origin: if self.has_origin {
                Some(self.origin)
            } else {
                None
            },
        }
    }
}
