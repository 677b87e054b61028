// Reads the number at the front of bytes.
ghost use Rattle.std.specs.Prelude.{◌≡◌, ◌≤◌, ◌<◌, length, IfSome};
ghost use Rattle.cy_wire.specs.Front.{front_number};

use crate::writer::LONGEST;

/// The number at the front, a varint, and how many bytes it takes: `None` where the bytes end
/// before its last one, where it takes more than ten, and where it is above `u64::MAX`. More bytes
/// than a number needs are read too.
pub fn front_varint(bytes: &[u8]) -> Option<(u64, usize)>
    ensures number { result ≡ front_number bytes.now }
    ensures there { IfSome result (λ found. found.1 ≤ length bytes.now) }
    ensures some { IfSome result (λ found. 0 < found.1) }
{
    let mut value = 0u64;
    let mut scale = 1u64;
    for place in 0..LONGEST - 1 {
        let byte = *bytes.get(place)?;
        value += u64::from(byte % 128) * scale;
        if byte < 128 {
            return Some((value, place + 1));
        }
        scale *= 128;
    }
    // The tenth byte has room for the highest bit alone.
    let last = *bytes.get(LONGEST - 1)?;
    if last < 2 {
        Some((value + u64::from(last) * scale, LONGEST))
    } else {
        None
    }
}
