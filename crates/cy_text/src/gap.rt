// What stands between tokens.
ghost use Rattle.std.specs.Prelude.{◌≡◌, ◌<◌, ◌≤◌, ◌+◌, ℕ, IsTrue, length, drop, slice_index};
ghost use Rattle.cy_text.specs.Tokens.{begins_token, tokens_from};

use crate::letters::{is_blank, line_len, rest_from};

/// How many bytes of blanks and comments stand in front.
pub(crate) fn gap_len(bytes: &[u8]) -> usize
    ensures same { (at : ℕ) → tokens_from (at + result) 0 (drop result bytes.now)
        ≡ tokens_from at 0 bytes.now }
    ensures within { result ≤ length bytes.now }
    ensures token { result < length bytes.now
        → IsTrue (begins_token (slice_index bytes.now result)) }
{
    let mut place = 0;
    while place < bytes.len() {
        let byte = bytes[place];
        if is_blank(byte) {
            place += 1;
        } else if byte == b'#' {
            place += 1 + line_len(rest_from(bytes, place + 1));
        } else {
            return place;
        }
    }
    place
}
