// Reads the number at the front of bytes.
ghost use Rattle.std.specs.Prelude.{◌≡◌, ◌≢◌, IfOk, IfErr};
ghost use Rattle.cy_wire.specs.Value.{TakesSome};
ghost use Rattle.cy_wire.specs.Varint.{varint_at};

use crate::WireError;
use crate::writer::LONGEST;

// The number at the front of bytes that stand at a place, and how many bytes it takes. Most numbers
// take one byte.
#[tactic(auto, using(crate::proofs::VarintSteps::first_at))]
#[inline(always)]
pub(crate) fn varint_at(bytes: &[u8], at: u64) -> Result<(u64, usize), WireError>
    ensures number { result ≡ varint_at at bytes.now }
    ensures taken { IfOk result (λ x. TakesSome x.1 bytes.now) }
    ensures not_memory { IfErr result (λ e. e ≢ WireError.Memory) }
{
    match bytes.split_first() {
        Some((byte, _)) if *byte < 128 => Ok((u64::from(*byte), 1)),
        _ => long_varint_at(bytes, at),
    }
}

// The same, byte by byte.
fn long_varint_at(bytes: &[u8], at: u64) -> Result<(u64, usize), WireError>
    ensures number { result ≡ varint_at at bytes.now }
    ensures taken { IfOk result (λ x. TakesSome x.1 bytes.now) }
    ensures not_memory { IfErr result (λ e. e ≢ WireError.Memory) }
{
    let mut value = 0u64;
    let mut scale = 1u64;
    for place in 0..LONGEST - 1 {
        let Some(&byte) = bytes.get(place) else {
            return Err(WireError::Cut { at });
        };
        value += u64::from(byte % 128) * scale;
        if byte < 128 {
            return Ok((value, place + 1));
        }
        scale *= 128;
    }
    let Some(&last) = bytes.get(LONGEST - 1) else {
        return Err(WireError::Cut { at });
    };
    if last >= 128 {
        return Err(WireError::LongVarint { at });
    }
    // Of the tenth byte there is room for one bit: the others are dropped.
    Ok((value + u64::from(last % 2) * scale, LONGEST))
}
