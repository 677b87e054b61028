// Signed numbers as unsigned ones, small ones staying small.
ghost use Rattle.std.specs.Prelude.{◌≡◌};
ghost use Rattle.cy_wire.specs.Wire.{zigzag};
ghost use Rattle.cy_wire.specs.Zigzag.{unzigzag};

/// The unsigned number that stands for a signed one.
pub fn zigzag_number(value: i64) -> u64
    ensures { result ≡ zigzag value }
{
    if value >= 0 {
        value as u64 * 2
    } else {
        (value.unsigned_abs() - 1) * 2 + 1
    }
}

/// The signed number that an unsigned one stands for: every one stands for one.
pub fn zigzag_value(number: u64) -> i64
    ensures { result ≡ unzigzag number }
{
    let half = (number / 2) as i64;
    if number % 2 == 0 { half } else { -half - 1 }
}
