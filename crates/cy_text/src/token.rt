// The tokens of a text.
ghost use Rattle.std.specs.Prelude.{◌≡◌, ◌<◌, ◌≤◌, ◌+◌, ◌^◌, length, IfOk, IsOkUnless, IsTrue};
ghost use Rattle.std.specs.Str.{IsUtf8};
ghost use Rattle.cy_msg.specs.Answer.{AnswersFault};
ghost use Rattle.cy_text.specs.Fault.{fault_in};
ghost use Rattle.cy_text.specs.Tokens.{IsThere, begins_number, mark_of, numbered, token_at};
ghost use Rattle.cy_text.specs.Tokens.{word_at};
ghost use Rattle.cy_text.specs.Letters.{is_letter, starts};
ghost use Rattle.cy_text.specs.Numbers.{number_at};
ghost use Rattle.cy_text.specs.declared.fault.Failure.TheVariants as failures;

use crate::fault::{Failure, Fault};
use crate::letters::{is_digit, is_letter, rest_from, word_len};
use crate::number::{Number, number_at};
use crate::quote::string_at;
use crate::{BadKind, Span};
use cy_msg::{Bytes, Text};
use std::alloc::Global;
use std::str;

/// The two kinds of brackets in which a message stands.
#[derive(Clone, Copy)]
pub(crate) enum Bracket {
    /// `{` and `}`.
    Brace,
    /// `<` and `>`.
    Angle,
}

/// A token.
#[derive(Drop)]
pub(crate) enum Token {
    Open(Bracket),
    Close(Bracket),
    ListOpen,
    ListClose,
    Colon,
    Comma,
    Semicolon,
    Minus,
    Whole(u64),
    Literal(Text),
    Word(Text),
    Quote(Bytes),
}

/// A token, and where it stands.
#[derive(Drop)]
pub(crate) struct Lexeme {
    pub(crate) token: Token,
    pub(crate) span: Span,
}

// The token that a mark is.
#[tactic(auto, unfolding(crate::specs::Tokens::mark_of))]
fn mark_of(byte: u8) -> Option<Token>
    ensures { result ≡ mark_of byte }
{
    match byte {
        b'{' => Some(Token::Open(Bracket::Brace)),
        b'}' => Some(Token::Close(Bracket::Brace)),
        b'<' => Some(Token::Open(Bracket::Angle)),
        b'>' => Some(Token::Close(Bracket::Angle)),
        b'[' => Some(Token::ListOpen),
        b']' => Some(Token::ListClose),
        b':' => Some(Token::Colon),
        b',' => Some(Token::Comma),
        b';' => Some(Token::Semicolon),
        b'-' => Some(Token::Minus),
        _ => None,
    }
}

// A copy of bytes that are a text.
fn text_of(alloc: Global, bytes: &[u8]) -> Result<Text, Failure>
    requires { IsUtf8 bytes.now }
    ensures copy { IfOk result (λ text. text ≡ bytes.now) }
    ensures only_memory { IsOkUnless result failures.Memory }
{
    match str::from_utf8(bytes) {
        Ok(text) => Ok(Text::new(alloc, text)?),
        Err(_) => unreachable!(),
    }
}

// The word that begins with the first byte, a letter.
#[tactic(auto, using(crate::proofs::LiteralText::prefix_word), unfolding(crate::specs::Tokens::word_at))]
fn word_at(alloc: Global, at: u32, bytes: &[u8]) -> Result<Lexeme, Failure>
    requires some { IsTrue (starts is_letter bytes.now) }
    requires within { at + length bytes.now < 2 ^ 32 }
    ensures value { AnswersFault fault_in (λ found. found) result (word_at at bytes.now) }
    ensures there { IfOk result (λ found. IsThere at bytes.now found) }
{
    let len = 1 + word_len(rest_from(bytes, 1));
    let text = text_of(alloc, &bytes[..len])?;
    let span = Span {
        start: at,
        end: at + len as u32,
    };
    Ok(Lexeme {
        token: Token::Word(text),
        span,
    })
}

// The number that begins with the first byte, a digit or a point.
#[tactic(auto, using(crate::proofs::LiteralText::prefix_literal))]
fn number_token(alloc: Global, at: u32, bytes: &[u8]) -> Result<Lexeme, Failure>
    requires some { IsTrue (starts begins_number bytes.now) }
    requires within { at + length bytes.now < 2 ^ 32 }
    ensures value { AnswersFault fault_in (λ found. found) result
        (numbered at bytes.now (number_at bytes.now)) }
    ensures there { IfOk result (λ found. IsThere at bytes.now found) }
{
    let Some((number, len)) = number_at(bytes) else {
        return Err(Failure::Fault(Fault::Bad(BadKind::Number, at)));
    };
    let span = Span {
        start: at,
        end: at + len as u32,
    };
    let token = match number {
        Number::Whole(size) => Token::Whole(size),
        Number::Literal => Token::Literal(text_of(alloc, &bytes[..len])?),
    };
    Ok(Lexeme { token, span })
}

/// The token that begins with the first of the bytes, which stand at `at`.
#[tactic(auto, unfolding(crate::specs::Tokens::token_at))]
pub(crate) fn token_at(alloc: Global, at: u32, bytes: &[u8]) -> Result<Lexeme, Failure>
    requires some { 0 < length bytes.now }
    requires within { at + length bytes.now < 2 ^ 32 }
    ensures value { AnswersFault fault_in (λ found. found) result (token_at at bytes.now) }
    ensures there { IfOk result (λ found. IsThere at bytes.now found) }
{
    let first = bytes[0];
    if is_letter(first) {
        return word_at(alloc, at, bytes);
    }
    if is_digit(first) || first == b'.' {
        return number_token(alloc, at, bytes);
    }
    if first == b'"' || first == b'\'' {
        let (quoted, end) = string_at(alloc, at, bytes)?;
        let token = Token::Quote(Bytes::from_vec(quoted));
        return Ok(Lexeme {
            token,
            span: Span { start: at, end },
        });
    }
    let Some(token) = mark_of(first) else {
        return Err(Failure::Fault(Fault::Bad(BadKind::Token, at)));
    };
    Ok(Lexeme {
        token,
        span: Span {
            start: at,
            end: at + 1,
        },
    })
}
