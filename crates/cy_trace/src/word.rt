// Bytes cut at marks.
ghost use Rattle.std.specs.Prelude.{◌≡◌, ◌+◌, length, IfSome, option_map};
ghost use Rattle.cy_trace.specs.Cuts.{cut, cut_last, behind};

/// What stands before the first `mark`, and what stands behind it.
pub fn cut(bytes: &[u8], mark: u8) -> Option<(&[u8], &[u8])>
    ensures parts { option_map (λ p. (p.0.now, p.1.now)) result ≡ cut mark bytes.now }
    ensures shorter { IfSome result (λ p. length p.0.now + 1 + length p.1.now ≡ length bytes.now) }
{
    for (place, byte) in bytes.iter().enumerate() {
        if *byte == mark {
            return Some((&bytes[..place], &bytes[place + 1..]));
        }
    }
    None
}

/// What stands before the last `mark`, and what stands behind it.
pub fn cut_last(bytes: &[u8], mark: u8) -> Option<(&[u8], &[u8])>
    ensures { option_map (λ p. (p.0.now, p.1.now)) result ≡ cut_last mark bytes.now }
{
    for place in (0..bytes.len()).rev() {
        if bytes[place] == mark {
            return Some((&bytes[..place], &bytes[place + 1..]));
        }
    }
    None
}

/// What stands behind a prefix, where the bytes begin with it.
pub fn behind<'a>(bytes: &'a [u8], prefix: &[u8]) -> Option<&'a [u8]>
    ensures { option_map (λ rest. rest.now) result ≡ behind prefix.now bytes.now }
{
    bytes.strip_prefix(prefix)
}
