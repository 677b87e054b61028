// The parts of texts, each added at the end of others.
ghost use Rattle.std.specs.Prelude.{◌≡◌, ◌++◌, OnOk, codes};
ghost use Rattle.std.specs.Fmt.{decimal, signed_decimal};
ghost use Rattle.cy_msg.specs.FaultText.{file_front, limit_text, named_text, numbers_text};

use crate::{Text, push_quoted};
use itoa::Buffer;
use std::alloc::AllocError;

/// Adds a number in decimal. Its only error is want of memory, as of all that stand here.
pub fn push_decimal(to: &mut Vec<u8>, number: u64) -> Result<(), AllocError>
    ensures { OnOk result (to.new.items ≡ to.old.items ++ decimal number) }
{
    let mut buffer = Buffer::new();
    to.extend_from_slice(buffer.format(number).as_bytes())
}

/// Adds a number in decimal, behind a `-` where it is below 0.
pub fn push_signed(to: &mut Vec<u8>, number: i64) -> Result<(), AllocError>
    ensures { OnOk result (to.new.items ≡ to.old.items ++ signed_decimal number) }
{
    let mut buffer = Buffer::new();
    to.extend_from_slice(buffer.format(number).as_bytes())
}

/// Adds a text and a number behind it.
pub fn push_number(to: &mut Vec<u8>, what: &str, number: u64) -> Result<(), AllocError>
    ensures { OnOk result (to.new.items ≡ to.old.items ++ (what.now ++ decimal number)) }
{
    to.extend_from_slice(what.as_bytes())?;
    push_decimal(to, number)
}

/// Adds a limit that was passed, by its name and what passed it.
#[tactic(auto, unfolding(crate::specs::FaultText::limit_text))]
pub fn push_limit(to: &mut Vec<u8>, what: &str, count: u64) -> Result<(), AllocError>
    ensures { OnOk result (to.new.items ≡ to.old.items ++ limit_text what.now count) }
{
    to.extend_from_slice(b"limit ")?;
    to.extend_from_slice(what.as_bytes())?;
    push_number(to, " passed: ", count)
}

/// Adds the name of a fault and its numbers.
#[tactic(auto, unfolding(crate::specs::FaultText::numbers_text))]
pub fn push_numbers(to: &mut Vec<u8>, what: &str, numbers: &[u32]) -> Result<(), AllocError>
    ensures { OnOk result (to.new.items ≡ to.old.items ++ numbers_text what.now numbers.now) }
{
    to.extend_from_slice(what.as_bytes())?;
    for number in numbers {
        push_number(to, " ", u64::from(*number))?;
    }
    Ok(())
}

/// Adds the name of a fault, its numbers, and a text in quotes.
#[tactic(auto, unfolding(crate::specs::FaultText::named_text))]
pub fn push_named(
    to: &mut Vec<u8>,
    what: &str,
    numbers: &[u32],
    name: &Text,
) -> Result<(), AllocError>
    ensures { OnOk result (to.new.items
        ≡ to.old.items ++ named_text what.now numbers.now name.now) }
{
    push_numbers(to, what, numbers)?;
    to.push(b' ')?;
    push_quoted(to, name.as_str().as_bytes(), true)
}

/// Adds what stands in a line before the fault of a file.
pub fn push_file(to: &mut Vec<u8>, file: &str) -> Result<(), AllocError>
    ensures { OnOk result (to.new.items ≡ to.old.items ++ file_front file.now) }
{
    to.extend_from_slice(b"cyber: ")?;
    to.extend_from_slice(file.as_bytes())?;
    to.extend_from_slice(b": ")
}
