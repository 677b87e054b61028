// The message { 1 value: sint64 }.
ghost use Rattle.std.specs.Prelude.{◌≡◌, ◌++◌, IfOk, OnOk, OnErr, IsOkUnless};
ghost use Rattle.cy_wire.specs.Wire.{whole_content};
ghost use Rattle.cy_wire.specs.Field.{fields_of, unless_fault};
ghost use Rattle.cy_wire.specs.Message.{last_number};
ghost use Rattle.cy_wire.specs.Whole.{whole_value};

use crate::zigzag::{zigzag_number, zigzag_value};
use crate::{Reader, WireError, Writer};
use std::alloc::Global;

/// Appends the written form of a whole number: field 1 with its zigzag value. Want of memory
/// changes nothing.
pub fn put_whole(to: &mut Writer, value: i64) -> Result<(), WireError>
    ensures ok { OnOk result (to.new ≡ to.old ++ whole_content value) }
    ensures err { OnErr result (to.new ≡ to.old) }
    ensures only_memory { IsOkUnless result WireError.Memory }
{
    to.field_u64(1, zigzag_number(value))
}

/// The written form of a whole number: field 1 with its zigzag value. It refuses for want of memory
/// alone. It takes memory once; [`put_whole`] into a writer that is cleared and kept takes none for
/// the later numbers.
pub fn whole_bytes(alloc: Global, value: i64) -> Result<Writer, WireError>
    ensures ok { IfOk result (λ w. w ≡ whole_content value) }
    ensures only_memory { IsOkUnless result WireError.Memory }
{
    let mut writer = Writer::new(alloc);
    put_whole(&mut writer, value)?;
    Ok(writer)
}

// The last number in field 1 of a message.
fn last_number(message: &[u8]) -> Result<Option<u64>, WireError>
    ensures { let all = fields_of 0 message.now in result ≡ unless_fault all.fault
        (last_number 1 all.fields) }
{
    let mut reader = Reader::new(message, 0);
    let mut number = None;
    while let Some(field) = reader.next_field()? {
        number = field.varint(1).or(number);
    }
    Ok(number)
}

/// The whole number of a content: the zigzag value of its field 1, of several the last. None where
/// the content is no sequence of fields, and where none of them is field 1 with a number. It takes
/// no memory.
#[tactic(auto, unfolding(crate::specs::Whole::whole_value))]
#[inline(always)]
pub fn whole_of(content: &[u8]) -> Option<i64>
    ensures { result ≡ whole_value content.now }
{
    last_number(content).ok()?.map(zigzag_value)
}
