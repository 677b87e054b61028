// What bytes begin with, where it is written as a trace has it. These readers need not find all:
// where one finds nothing, the line is read as a whole, which decides.
ghost use Rattle.std.specs.Prelude.{◌≡◌, ◌≤◌, ◌<◌, ◌+◌, ◌++◌, ◌∷◌, IfSome};
ghost use Rattle.std.specs.Fmt.{decimal, signed_decimal};
ghost use Rattle.cy_trace.specs.TraceForm.{IsLong, IsLongSigned, IsShort, IsValue};
ghost use Rattle.cy_trace.specs.LineParts.{value_text};

use crate::word::behind;

// A number above this one is not gone on with, since one digit more may be too much.
const MOST_FRONT: u64 = 1_000_000_000_000_000_000;

/// What stands behind a word.
#[inline(always)]
pub(crate) fn front_word<'a>(bytes: &'a [u8], word: &[u8]) -> Option<&'a [u8]>
    ensures { IfSome result (λ rest. bytes.now ≡ word.now ++ rest.now) }
{
    behind(bytes, word)
}

/// What stands behind a byte.
#[inline(always)]
pub(crate) fn front_byte(bytes: &[u8], byte: u8) -> Option<&[u8]>
    ensures { IfSome result (λ rest. bytes.now ≡ byte ∷ rest.now) }
{
    match bytes {
        [first, rest @ ..] if *first == byte => Some(rest),
        _ => None,
    }
}

// A digit, and what stands behind it.
#[inline(always)]
fn front_digit(bytes: &[u8]) -> Option<(u64, &[u8])>
    ensures { IfSome result (λ p. (p.0 < 10) × (bytes.now ≡ (48 + p.0) ∷ p.1.now)) }
{
    match bytes {
        [byte @ b'0'..=b'9', rest @ ..] => Some((u64::from(*byte - b'0'), rest)),
        _ => None,
    }
}

// The number whose first digit is this one, and what stands behind it.
#[inline(always)]
fn front_digits(first: u64, bytes: &[u8]) -> Option<(u64, &[u8])>
    requires { (1 ≤ first) × (first < 10) }
    ensures { IfSome result (λ p. ((48 + first) ∷ bytes.now ≡ decimal p.0 ++ p.1.now)
        × IsLong p.0) }
{
    let mut value = first;
    let mut rest = bytes;
    while let Some((digit, more)) = front_digit(rest) {
        if value > MOST_FRONT {
            return None;
        }
        value = 10 * value + digit;
        rest = more;
    }
    Some((value, rest))
}

/// The number whose digits the bytes begin with, and what stands behind it.
#[inline(always)]
pub(crate) fn front_number(bytes: &[u8]) -> Option<(u64, &[u8])>
    ensures { IfSome result (λ p. (bytes.now ≡ decimal p.0 ++ p.1.now) × IsLong p.0) }
{
    let (first, rest) = front_digit(bytes)?;
    if first == 0 {
        return Some((0, rest));
    }
    front_digits(first, rest)
}

/// The same, up to the greatest `u32`.
#[inline(always)]
pub(crate) fn front_short(bytes: &[u8]) -> Option<(u32, &[u8])>
    ensures { IfSome result (λ p. (bytes.now ≡ decimal p.0 ++ p.1.now) × IsShort p.0) }
{
    let (number, rest) = front_number(bytes)?;
    if number > 4_294_967_295 {
        return None;
    }
    Some((number as u32, rest))
}

// The same of a number with a sign.
#[inline(always)]
fn front_signed(bytes: &[u8]) -> Option<(i64, &[u8])>
    ensures { IfSome result (λ p. (bytes.now ≡ signed_decimal p.0 ++ p.1.now)
        × IsLongSigned p.0) }
{
    match front_byte(bytes, b'-') {
        Some(digits) => front_negative(digits),
        None => {
            let (size, rest) = front_number(bytes)?;
            if size > 9_223_372_036_854_775_807 {
                return None;
            }
            Some((size as i64, rest))
        }
    }
}

// The number below 0 whose digits behind the sign the bytes begin with.
fn front_negative(digits: &[u8]) -> Option<(i64, &[u8])>
    ensures { IfSome result (λ p. (45 ∷ digits.now ≡ signed_decimal p.0 ++ p.1.now)
        × IsLongSigned p.0) }
{
    let (size, rest) = front_number(digits)?;
    match size {
        0 => None,
        size if size > 9_223_372_036_854_775_807 => None,
        size => Some((-(size as i64), rest)),
    }
}

/// A value, where there is one.
#[inline(always)]
pub(crate) fn front_value(bytes: &[u8]) -> Option<(Option<i64>, &[u8])>
    ensures { IfSome result (λ p. (bytes.now ≡ value_text p.0 ++ p.1.now) × IsValue p.0) }
{
    match front_byte(bytes, b'=') {
        Some(rest) => {
            let (value, rest) = front_signed(rest)?;
            Some((Some(value), rest))
        }
        None => Some((None, bytes)),
    }
}
