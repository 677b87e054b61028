// What single bytes may be, and how many of a kind stand in front.
ghost use Rattle.std.specs.Prelude.{◌≡◌, ◌≤◌, ◌==◌, ◌<◌, not, length, drop, ◌+◌};
ghost use Rattle.std.specs.List.{prefix_len};
ghost use Rattle.cy_text.specs.Numbers.{either};
ghost use Rattle.cy_text.specs.Letters.{is_blank, is_digit, is_octal, is_hex, is_letter, is_word};
ghost use Rattle.cy_text.specs.Letters.{digit_of, starts};

pub(crate) fn is_blank(byte: u8) -> bool
    ensures { result ≡ is_blank byte }
{
    matches!(byte, b' ' | 9..=13)
}

pub(crate) fn is_digit(byte: u8) -> bool
    ensures { result ≡ is_digit byte }
{
    matches!(byte, b'0'..=b'9')
}

pub(crate) fn is_octal(byte: u8) -> bool
    ensures { result ≡ is_octal byte }
{
    matches!(byte, b'0'..=b'7')
}

pub(crate) fn is_hex(byte: u8) -> bool
    ensures { result ≡ is_hex byte }
{
    matches!(byte, b'0'..=b'9' | b'A'..=b'F' | b'a'..=b'f')
}

pub(crate) fn is_letter(byte: u8) -> bool
    ensures { result ≡ is_letter byte }
{
    matches!(byte, b'A'..=b'Z' | b'a'..=b'z' | b'_')
}

pub(crate) fn is_word(byte: u8) -> bool
    ensures { result ≡ is_word byte }
{
    is_letter(byte) || is_digit(byte)
}

/// The number that a digit stands for, up to 15; 0 where it is none.
pub(crate) fn digit_of(byte: u8) -> u8
    ensures value { result ≡ digit_of byte }
    ensures small { result < 16 }
{
    match byte {
        b'0'..=b'9' => byte - b'0',
        b'A'..=b'F' => byte - b'A' + 10,
        b'a'..=b'f' => byte - b'a' + 10,
        _ => 0,
    }
}

/// The bytes from a place on.
pub(crate) fn rest_from(bytes: &[u8], place: usize) -> &[u8]
    requires { place ≤ length bytes.now }
    ensures rest { result.now ≡ drop place bytes.now }
    ensures count { length result.now + place ≡ length bytes.now }
{
    bytes.split_at(place).1
}

/// Whether a word byte stands in front.
pub(crate) fn starts_word(bytes: &[u8]) -> bool
    ensures { result ≡ starts is_word bytes.now }
{
    match bytes {
        [first, ..] => is_word(*first),
        [] => false,
    }
}

/// Whether a digit stands in front.
pub(crate) fn starts_digit(bytes: &[u8]) -> bool
    ensures { result ≡ starts is_digit bytes.now }
{
    match bytes {
        [first, ..] => is_digit(*first),
        [] => false,
    }
}

/// Whether an octal digit stands in front.
pub(crate) fn starts_octal(bytes: &[u8]) -> bool
    ensures { result ≡ starts is_octal bytes.now }
{
    match bytes {
        [first, ..] => is_octal(*first),
        [] => false,
    }
}

/// Whether one of two bytes stands in front.
pub(crate) fn starts_either(bytes: &[u8], one: u8, other: u8) -> bool
    ensures { result ≡ starts (either one other) bytes.now }
{
    match bytes {
        [first, ..] => *first == one || *first == other,
        [] => false,
    }
}

/// How many word bytes stand in front.
pub(crate) fn word_len(bytes: &[u8]) -> usize
    ensures count { result ≡ prefix_len is_word bytes.now }
    ensures within { result ≤ length bytes.now }
{
    bytes.iter().take_while(|byte| is_word(**byte)).count()
}

/// How many digits stand in front.
pub(crate) fn digits_len(bytes: &[u8]) -> usize
    ensures count { result ≡ prefix_len is_digit bytes.now }
    ensures within { result ≤ length bytes.now }
{
    bytes.iter().take_while(|byte| is_digit(**byte)).count()
}

/// How many octal digits stand in front.
pub(crate) fn octal_len(bytes: &[u8]) -> usize
    ensures count { result ≡ prefix_len is_octal bytes.now }
    ensures within { result ≤ length bytes.now }
{
    bytes.iter().take_while(|byte| is_octal(**byte)).count()
}

/// How many hexadecimal digits stand in front.
pub(crate) fn hex_len(bytes: &[u8]) -> usize
    ensures count { result ≡ prefix_len is_hex bytes.now }
    ensures within { result ≤ length bytes.now }
{
    bytes.iter().take_while(|byte| is_hex(**byte)).count()
}

/// How many bytes of the line there still are.
pub(crate) fn line_len(bytes: &[u8]) -> usize
    ensures count { result ≡ prefix_len (λ byte. not (byte == 10)) bytes.now }
    ensures within { result ≤ length bytes.now }
{
    bytes.iter().take_while(|byte| **byte != b'\n').count()
}
