// Numbers whose digits are kept, for texts in which a number stands again or the next one follows.
ghost use Rattle.std.specs.Prelude.{◌≡◌, ◌≤◌, ◌+◌, ◌++◌, length, take};
ghost use Rattle.std.specs.Fmt.{decimal};
ghost use Rattle.cy_trace_text.specs.private.Kept.{IsKept, kept_number};

use crate::page::{ROOM, digits_of, put_number};
use itoa::write_digits;

/// The numbers from this one on are not kept: they have more than eight digits.
const TOO_LONG: u64 = 100_000_000;

/// A number below 100,000,000 and its digits in decimal.
#[derive(Clone, Copy)]
pub(crate) struct Numeral {
    number: u64,
    // The digits as bytes of one number, the first digit in the lowest byte, so that they are put
    // at once.
    digits: u64,
    // The last digit's place in it: one more there is the number's successor, unless the digit is
    // a 9.
    unit: u64,
    // How many digits there are.
    len: usize,
    ghost kept: { IsKept number digits unit len },
}

impl Numeral {
    /// The number 0.
    #[inline(always)]
    pub(crate) fn zero() -> Self
        ensures { result.number ≡ 0 }
    {
        Numeral {
            number: 0,
            digits: u64::from(b'0'),
            unit: 1,
            len: 1,
        }
    }

    /// A number, or 0 where it has more than eight digits.
    #[inline(always)]
    pub(crate) fn of(number: u64) -> Self
        ensures { result.number ≡ kept_number number }
    {
        if number >= TOO_LONG {
            return Numeral::zero();
        }
        let len = digits_of(number);
        let mut bytes = [0; 8];
        write_digits(number, &mut bytes, len);
        Numeral {
            number,
            digits: u64::from_le_bytes(bytes),
            unit: 1 << (8 * (len - 1)),
            len,
        }
    }

    /// The same of another number, whose digits are counted on from these where it is the next one.
    #[inline(always)]
    pub(crate) fn moved_to(&self, number: u64) -> Self
        ensures { result.number ≡ kept_number number }
    {
        if number == self.number {
            return *self;
        }
        let is_last_9 = self.digits >= u64::from(b'9') * self.unit;
        if number != self.number + 1 || is_last_9 {
            return Numeral::of(number);
        }
        Numeral {
            number,
            digits: self.digits + self.unit,
            unit: self.unit,
            len: self.len,
        }
    }
}

/// Puts a number behind the bytes in front of a place, in decimal; where it is the numeral's, by a
/// copy of the digits. Answers the place behind it.
#[inline(always)]
pub(crate) fn put_kept(page: &mut [u8; ROOM], at: usize, number: u64, numeral: &Numeral) -> usize
    requires { at + 20 ≤ 4096 }
    ensures text { take result page.new ≡ take at page.old ++ decimal number }
    ensures end { result ≤ at + 20 }
{
    if number != numeral.number {
        return put_number(page, at, number);
    }
    page[at..at + 8].copy_from_slice(&numeral.digits.to_le_bytes());
    at + numeral.len
}
