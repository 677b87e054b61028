// Numbers, as they begin at the start of some bytes.
ghost use Rattle.std.specs.Prelude.{◌≡◌, ◌<◌, ◌≤◌, ◌+◌, ◌==◌, length, drop, IfSome};
ghost use Rattle.std.specs.List.{prefix_len};
ghost use Rattle.cy_text.specs.Letters.{is_digit, starts};
ghost use Rattle.cy_text.specs.Numbers.{either, value_of, exponent_len, tail_len, ended, sized};
ghost use Rattle.cy_text.specs.Numbers.{whole_at, pointed_at, decimal_at, zero_at, number_at};

use crate::letters::{
    digit_of, digits_len, hex_len, octal_len, starts_digit, starts_either, starts_octal,
    starts_word,
};

/// What a number is: a whole one by its size, and anything else by its text.
#[derive(Clone, Copy)]
pub(crate) enum Number {
    Whole(u64),
    Literal,
}

/// The value of some digits, where it fits.
#[tactic(auto, unfolding(crate::specs::Numbers::value_of))]
pub(crate) fn value_of(base: u64, digits: &[u8]) -> Option<u64>
    requires { 0 < base }
    ensures { result ≡ value_of base digits.now }
{
    let mut value = 0u64;
    for digit in digits {
        value = value
            .checked_mul(base)?
            .checked_add(u64::from(digit_of(*digit)))?;
    }
    Some(value)
}

// How many bytes an exponent in front takes.
#[tactic(auto, unfolding(crate::specs::Numbers::exponent_len))]
fn exponent_len(bytes: &[u8]) -> usize
    ensures count { result ≡ exponent_len bytes.now }
    ensures within { result ≤ length bytes.now }
{
    if !starts_either(bytes, b'e', b'E') {
        return 0;
    }
    let sign = usize::from(starts_either(&bytes[1..], b'+', b'-'));
    let digits = &bytes[1 + sign..];
    if starts_digit(digits) {
        1 + sign + digits_len(digits)
    } else {
        0
    }
}

// How many bytes an exponent and an `f` in front take.
#[tactic(auto, unfolding(crate::specs::Numbers::tail_len))]
fn tail_len(bytes: &[u8]) -> usize
    ensures count { result ≡ tail_len bytes.now }
    ensures within { result ≤ length bytes.now }
{
    let exponent = exponent_len(bytes);
    exponent + usize::from(starts_either(&bytes[exponent..], b'f', b'F'))
}

// A number of so many bytes, unless a letter, a digit or `_` follows.
fn ended(number: Number, len: usize, bytes: &[u8]) -> Option<(Number, usize)>
    requires some { 0 < len }
    requires within { len ≤ length bytes.now }
    ensures value { result ≡ ended number len bytes.now }
    ensures there { IfSome result (λ found. (0 < found.1) × (found.1 ≤ length bytes.now)) }
{
    if starts_word(&bytes[len..]) {
        None
    } else {
        Some((number, len))
    }
}

// A whole number whose digits stand behind some other bytes.
#[tactic(auto, unfolding(crate::specs::Numbers::whole_at))]
fn whole_at(base: u64, prefix: usize, count: usize, bytes: &[u8]) -> Option<(Number, usize)>
    requires positive { 0 < base }
    requires some { 0 < count }
    requires within { prefix + count ≤ length bytes.now }
    ensures value { result ≡ whole_at base prefix count bytes.now }
    ensures there { IfSome result (λ found. (0 < found.1) × (found.1 ≤ length bytes.now)) }
{
    let size = value_of(base, &bytes[prefix..prefix + count])?;
    ended(Number::Whole(size), prefix + count, bytes)
}

// A literal with its point behind `count` digits.
#[tactic(auto, unfolding(crate::specs::Numbers::pointed_at))]
fn pointed_at(count: usize, bytes: &[u8]) -> Option<(Number, usize)>
    requires { count < length bytes.now }
    ensures value { result ≡ pointed_at count bytes.now }
    ensures there { IfSome result (λ found. (0 < found.1) × (found.1 ≤ length bytes.now)) }
{
    let digits_end = count + 1 + digits_len(&bytes[count + 1..]);
    let tail = tail_len(&bytes[digits_end..]);
    ended(Number::Literal, digits_end + tail, bytes)
}

// A number that begins with a decimal of `count` digits.
#[tactic(auto, unfolding(crate::specs::Numbers::decimal_at))]
fn decimal_at(count: usize, bytes: &[u8]) -> Option<(Number, usize)>
    requires some { 0 < count }
    requires within { count ≤ length bytes.now }
    ensures value { result ≡ decimal_at count bytes.now }
    ensures there { IfSome result (λ found. (0 < found.1) × (found.1 ≤ length bytes.now)) }
{
    let rest = &bytes[count..];
    if starts_either(rest, b'.', b'.') {
        return pointed_at(count, bytes);
    }
    match tail_len(rest) {
        0 => whole_at(10, 0, count, bytes),
        tail => ended(Number::Literal, count + tail, bytes),
    }
}

// A number that begins with 0.
#[tactic(auto, unfolding(crate::specs::Numbers::zero_at))]
fn zero_at(bytes: &[u8]) -> Option<(Number, usize)>
    requires { 0 < length bytes.now }
    ensures value { result ≡ zero_at bytes.now }
    ensures there { IfSome result (λ found. (0 < found.1) × (found.1 ≤ length bytes.now)) }
{
    let rest = &bytes[1..];
    if starts_either(rest, b'x', b'X') {
        return match hex_len(&bytes[2..]) {
            0 => None,
            count => whole_at(16, 2, count, bytes),
        };
    }
    if starts_octal(rest) {
        whole_at(8, 1, octal_len(rest), bytes)
    } else {
        decimal_at(1, bytes)
    }
}

/// The number that begins with the first byte, a digit or a point, and how many bytes it takes:
/// none where it is outside the form or too large.
#[tactic(auto, unfolding(crate::specs::Numbers::number_at))]
pub(crate) fn number_at(bytes: &[u8]) -> Option<(Number, usize)>
    ensures value { result ≡ number_at bytes.now }
    ensures there { IfSome result (λ found. (0 < found.1) × (found.1 ≤ length bytes.now)) }
{
    match bytes {
        [b'.', rest @ ..] => {
            if starts_digit(rest) {
                pointed_at(0, bytes)
            } else {
                None
            }
        }
        [b'0', ..] => zero_at(bytes),
        [_, rest @ ..] => decimal_at(1 + digits_len(rest), bytes),
        [] => None,
    }
}
