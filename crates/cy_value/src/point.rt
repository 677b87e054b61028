// Numbers with a point, by their bits.
ghost use Rattle.std.specs.Prelude.{◌≡◌, ◌≤◌, ◌^◌, min};
ghost use Rattle.cy_value.specs.Point.{binary32, binary64, held_signed, point_number};

use crate::scaled::scaled;

// How the bits of a number with a point are laid out (IEEE 754): the fraction in the low ones, the
// exponent above it, and the sign above both.
#[derive(Clone, Copy)]
pub struct PointFormat {
    // How many fractions there are.
    pub fractions: u64,
    // How many exponents there are.
    pub exponents: u64,
    // How many binary places stand behind the point where the exponent is 0.
    pub places: u32,
}

// The format of four bytes, and that of eight.
pub(crate) fn binary32() -> PointFormat
    ensures { result ≡ binary32 }
{
    PointFormat {
        fractions: 8_388_608,
        exponents: 256,
        places: 150,
    }
}

pub(crate) fn binary64() -> PointFormat
    ensures { result ≡ binary64 }
{
    PointFormat {
        fractions: 4_503_599_627_370_496,
        exponents: 2_048,
        places: 1_075,
    }
}

// A number by its sign and its size, held within 64 signed bits.
fn held_signed(is_negative: bool, size: u64) -> i64
    requires { size ≤ 2 ^ 63 }
    ensures { result ≡ held_signed is_negative size }
{
    if is_negative {
        if size > i64::MAX as u64 {
            i64::MIN
        } else {
            -(size as i64)
        }
    } else {
        size.min(i64::MAX as u64) as i64
    }
}

// The number that some bits are, multiplied by a scale and cut towards zero; none of what is
// infinite or no number.
#[tactic(auto, unfolding(crate::specs::Point::point_number))]
pub(crate) fn point_number(format: PointFormat, scale: u64, bits: u64) -> Option<i64>
    requires fractions { (1 ≤ format.fractions) × (format.fractions ≤ 2 ^ 52) }
    requires exponents { (1 ≤ format.exponents) × (format.exponents ≤ 2048) }
    ensures { result ≡ point_number format scale bits }
{
    let above = bits / format.fractions;
    let exponent = above % format.exponents;
    if exponent == format.exponents - 1 {
        return None;
    }
    let fraction = bits % format.fractions;
    let digits = if exponent == 0 {
        fraction
    } else {
        fraction + format.fractions
    };
    let size = scaled(digits, scale, exponent.max(1) as u32, format.places);
    Some(held_signed(above >= format.exponents, size))
}
