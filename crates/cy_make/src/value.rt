// The messages of the record, by their numbers.
ghost use Rattle.std.specs.Prelude.{◌≡◌, ◌≤◌, ◌*◌};
ghost use Rattle.cy_make.specs.Messages.{value_of};

/// The value of the message of a number.
#[tactic(auto, unfolding(crate::specs::Messages::value_of))]
pub fn value_at(number: u32) -> i64
    requires { number ≤ 1048576 }
    ensures { result ≡ value_of number }
{
    let k = u64::from(number);
    let residue = (7 * k * k + 13 * k) % 2001;
    residue as i64 - 1000
}
