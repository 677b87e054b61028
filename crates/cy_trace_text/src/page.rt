// Words and numbers put into an array, one behind the other.
ghost use Rattle.std.specs.Prelude.{◌≡◌, ◌≤◌, ◌<◌, ◌+◌, ◌++◌, ◌∷◌, [], length, take};
ghost use Rattle.std.specs.Fmt.{decimal, signed_decimal};

use itoa::write_digits;

/// The bytes of such an array, enough for 16 lines of the most bytes.
pub(crate) const ROOM: usize = 4096;

/// Puts a byte behind those in front of a place. Answers the place behind it.
#[inline(always)]
pub(crate) fn put_byte(page: &mut [u8; ROOM], at: usize, byte: u8) -> usize
    requires { at + 1 ≤ 4096 }
    ensures text { take result page.new ≡ take at page.old ++ byte ∷ [] }
    ensures end { result ≡ at + 1 }
{
    page[at] = byte;
    at + 1
}

/// Puts a word behind the bytes in front of a place. Answers the place behind it.
#[inline(always)]
pub(crate) fn put_word(page: &mut [u8; ROOM], at: usize, word: &[u8]) -> usize
    requires { at + length word.now ≤ 4096 }
    ensures text { take result page.new ≡ take at page.old ++ word.now }
    ensures end { result ≡ at + length word.now }
{
    let end = at + word.len();
    page[at..end].copy_from_slice(word);
    end
}

/// Puts a number behind the bytes in front of a place, in decimal. Answers the place behind it.
#[inline(always)]
pub(crate) fn put_number(page: &mut [u8; ROOM], at: usize, number: u64) -> usize
    requires { at + 20 ≤ 4096 }
    ensures text { take result page.new ≡ take at page.old ++ decimal number }
    ensures end { result ≤ at + 20 }
{
    let end = at + digits_of(number);
    write_digits(number, page, end);
    end
}

/// Puts a number behind the bytes in front of a place, with a sign where it is below 0. Answers the
/// place behind it.
#[inline(always)]
pub(crate) fn put_signed(page: &mut [u8; ROOM], at: usize, value: i64) -> usize
    requires { at + 21 ≤ 4096 }
    ensures text { take result page.new ≡ take at page.old ++ signed_decimal value }
    ensures end { result ≤ at + 21 }
{
    let mut start = at;
    if value < 0 {
        start = put_byte(page, at, b'-');
    }
    put_number(page, start, value.unsigned_abs())
}

/// How many digits a number has in decimal. It is divided as it is for its digits, so that this is
/// done once.
#[inline(always)]
pub(crate) fn digits_of(number: u64) -> usize
    ensures { result ≡ length (decimal number) }
{
    if number < 10_000 {
        return few_digits_of(number);
    }
    let front = number / 10_000;
    if front < 10_000 {
        return 4 + few_digits_of(front);
    }
    4 + more_digits_of(front)
}

// The same of any number. It stands by itself: together with the division above, its own one would
// be by one of two numbers, and take many times as long.
#[inline(never)]
fn more_digits_of(number: u64) -> usize
    ensures count { result ≡ length (decimal number) }
    ensures few { result ≤ 20 }
{
    let mut rest = number;
    let mut count = 0;
    while rest >= 10_000 {
        rest /= 10_000;
        count += 4;
    }
    count + few_digits_of(rest)
}

// The same of a number of four digits at most.
#[inline(always)]
fn few_digits_of(number: u64) -> usize
    requires { number < 10000 }
    ensures { result ≡ length (decimal number) }
{
    match number {
        0..=9 => 1,
        10..=99 => 2,
        100..=999 => 3,
        _ => 4,
    }
}
