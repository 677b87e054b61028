// Words of a line, and the numbers that they spell.
ghost use Rattle.std.specs.Prelude.{◌≡◌, ◌<◌, ◌≤◌, length, IfSome};
ghost use Rattle.std.specs.Prelude.{option_and_then, slice_index, ◌≢◌, ◌⊎◌, IsTrue};
ghost use Rattle.cy_trace_read.specs.Numerals.{number, below_zero, signed};
ghost use Rattle.std.specs.Str.{bytes_eq};

use std::str;

/// Whether the bytes are just these.
pub(crate) fn is_word(bytes: &[u8], word: &[u8]) -> bool
    ensures { result ≡ bytes_eq bytes.now word.now }
{
    bytes == word
}

// Whether the bytes begin with no `+`, and with no zero before others.
fn is_plain(word: &[u8]) -> bool
    ensures yes { IsTrue result → (slice_index word.now 0 ≢ 43) × (slice_index word.now 0 ≡ 48
        → length word.now ≤ 1) }
    ensures no { ¬ (IsTrue result) → (slice_index word.now 0 ≡ 43) ⊎ ((slice_index word.now 0 ≡ 48)
        × (1 < length word.now)) }
{
    !matches!(word, [b'+', ..] | [b'0', _, ..])
}

/// The number that the bytes spell in decimal, where it is at most `most`.
pub(crate) fn number(word: &[u8], most: u64) -> Option<u64>
    ensures value { result ≡ number most word.now }
    ensures small { IfSome result (λ n. n ≤ most) }
{
    if !is_plain(word) {
        return None;
    }
    let Ok(text) = str::from_utf8(word) else {
        return None;
    };
    let Ok(value) = text.parse::<u64>() else {
        return None;
    };
    if value <= most { Some(value) } else { None }
}

/// The same, up to the greatest `u32`.
pub(crate) fn short(word: &[u8]) -> Option<u32>
    ensures { result ≡ number 4294967295 word.now }
{
    let value = number(word, 4_294_967_295)?;
    Some(value as u32)
}

/// The same, up to the greatest `u64`.
pub(crate) fn long(word: &[u8]) -> Option<u64>
    ensures { result ≡ number 18446744073709551615 word.now }
{
    number(word, u64::MAX)
}

// The number below 0 whose digits behind the sign these are.
fn negative(digits: &[u8]) -> Option<i64>
    ensures { result ≡ option_and_then below_zero (number 9223372036854775808 digits.now) }
{
    match number(digits, 1 << 63)? {
        0 => None,
        size => Some((-i128::from(size)) as i64),
    }
}

/// The number that the bytes spell in decimal, with a sign where it is below 0.
#[tactic(auto, unfolding(crate::specs::Numerals::signed))]
pub(crate) fn signed(word: &[u8]) -> Option<i64>
    ensures { result ≡ signed word.now }
{
    match word {
        [] => None,
        [first, digits @ ..] => {
            if *first == b'-' {
                negative(digits)
            } else {
                let size = number(word, (1 << 63) - 1)?;
                Some(size as i64)
            }
        }
    }
}
