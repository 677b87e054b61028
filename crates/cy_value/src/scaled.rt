// Products with powers of two, as far as 64 bits have room.
ghost use Rattle.std.specs.Prelude.{◌≡◌, ◌*◌, ◌/◌, ◌^◌, min};

// The greatest size that is told apart.
const GREATEST: u64 = 9_223_372_036_854_775_808;

// A size, at most the greatest.
fn at_most(size: u128) -> u64
    ensures { result ≡ min size (2 ^ 63) }
{
    size.min(u128::from(GREATEST)) as u64
}

// A product with a power of two. Above 2 ^ 63 no factor needs to be told apart.
fn raised(number: u128, by: u32) -> u64
    ensures { result ≡ min (number * 2 ^ by) (2 ^ 63) }
{
    at_most(number.min(u128::from(GREATEST)) << by.min(63))
}

// A quotient by a power of two, without what stands behind its point.
fn lowered(number: u128, by: u32) -> u64
    ensures { result ≡ min (number / 2 ^ by) (2 ^ 63) }
{
    if by >= 128 { 0 } else { at_most(number >> by) }
}

// The product of two numbers and 2 to an exponent, over 2 to so many places.
pub(crate) fn scaled(digits: u64, scale: u64, exponent: u32, places: u32) -> u64
    ensures { result ≡ min (digits * scale * 2 ^ exponent / 2 ^ places) (2 ^ 63) }
{
    let number = u128::from(digits) * u128::from(scale);
    if exponent >= places {
        raised(number, exponent - places)
    } else {
        lowered(number, places - exponent)
    }
}
