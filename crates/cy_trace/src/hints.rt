// Which name a line of the tape is likely of, by the bytes of the name. Each is a guess: a line is
// of the name only where it begins as the name's lines do.

use std::alloc::Global;

// How many guesses are kept, of which the 14 highest bits of a key choose one.
const KEPT: usize = 16_384;

const KEY_SHIFT: u32 = 50;

// How many bytes stand before a name: `tape` and a space, and a quotation mark.
const BEFORE_NAME: usize = 6;

// A quotation mark, 1 and the highest bit, at each byte of a word.
const QUOTES: u64 = 0x2222_2222_2222_2222;

const ONES: u64 = 0x0101_0101_0101_0101;

const HIGH_BITS: u64 = 0x8080_8080_8080_8080;

// An odd number, by which a key is spread over its highest bits.
const SPREAD: u64 = 0x9e37_79b9_7f4a_7c15;

/// A number for each of so many keys, which a line's name has. Names may share a key.
#[derive(Drop)]
pub(crate) struct Hints {
    numbers: Vec<u32>,
}

impl Hints {
    /// None.
    pub(crate) fn none(alloc: Global) -> Self {
        Hints {
            numbers: Vec::new(alloc),
        }
    }

    /// Room for some, where there is memory.
    pub(crate) fn with_room(alloc: Global) -> Self {
        match vec![in alloc; 0; KEPT] {
            Ok(numbers) => Hints { numbers },
            Err(_) => Hints::none(alloc),
        }
    }

    /// The number that was noted last at a place, or 0.
    #[inline(always)]
    pub(crate) fn at(&self, place: usize) -> u32 {
        self.numbers.get(place).copied().unwrap_or(0)
    }

    /// Notes a number at a place.
    pub(crate) fn note(&mut self, place: usize, number: u32) {
        if let Some(noted) = self.numbers.get_mut(place) {
            *noted = number;
        }
    }
}

/// The place of the name with whose line the bytes begin.
#[inline(always)]
pub(crate) fn place_of(bytes: &[u8]) -> usize {
    let mut rest = bytes.get(BEFORE_NAME..).unwrap_or(&[]);
    let mut key = 0;
    while let Some((word, more)) = rest.split_first_chunk::<8>() {
        let word = u64::from_le_bytes(*word);
        if let Some(end) = up_to_quote(word) {
            return (with_word(key, end) >> KEY_SHIFT) as usize;
        }
        key = with_word(key, word);
        rest = more;
    }
    0
}

// The bytes of a word up to its first quotation mark, where it has one.
#[inline(always)]
fn up_to_quote(word: u64) -> Option<u64> {
    let differs = word ^ QUOTES;
    // The lowest bit here is the highest one of the first byte that is a quotation mark.
    let found = differs.wrapping_sub(ONES) & !differs & HIGH_BITS;
    if found == 0 {
        return None;
    }
    Some(word & (found ^ found.wrapping_sub(1)))
}

// A key with one more word.
#[inline(always)]
fn with_word(key: u64, word: u64) -> u64 {
    (key.rotate_left(26) ^ word).wrapping_mul(SPREAD)
}
