// Reads the fields of a message in order.
ghost use Rattle.std.specs.Prelude.{◌≡◌, ◌≢◌, ◌+◌, ◌<◌, ◌^◌, length, IfErr};
ghost use Rattle.cy_wire.specs.Field.{fields_of};
ghost use Rattle.cy_wire.specs.Reader.{TakesField};

use crate::decode::field_of;
use crate::{Field, WireError};
use std::marker::Model;

/// The fields of a message that are still to be read: contracts see them as a list, and the fault
/// that ends it, if one does.
#[derive(Drop)]
pub struct Reader<'a> {
    bytes: &'a [u8],
    at: u64,
}

impl<'a> Model for Reader<'a> {
    ghost use Rattle.std.specs.Prelude.{◌+◌, ◌<◌, ◌^◌, length};
    ghost use Rattle.cy_wire.specs.Field.{Fields, fields_of};

    ghost Value = { Fields };

    ghost view = { λ r. fields_of r.at r.bytes.now };

    ghost invariant = { λ r. r.at + length r.bytes.now < 2 ^ 64 };
}

impl<'a> Reader<'a> {
    /// Reads bytes from their front; `base` is the place of the first one, from which all places
    /// are counted. It takes no memory.
    pub fn new(bytes: &'a [u8], base: u64) -> Self
        requires { base + length bytes.now < 2 ^ 64 }
        ensures { result ≡ fields_of base bytes.now }
    {
        Reader { bytes, at: base }
    }

    /// The next field, or none at the end. After a fault it answers that fault again. It takes no
    /// memory.
    #[inline(always)]
    pub fn next_field(&mut self) -> Result<Option<Field<'a>>, WireError>
        ensures field { TakesField result self.old self.new }
        ensures not_memory { IfErr result (λ e. e ≢ WireError.Memory) }
    {
        if self.bytes.is_empty() {
            return Ok(None);
        }
        let (field, taken) = field_of(self.bytes, self.at)?;
        self.bytes = &self.bytes[taken..];
        self.at += taken as u64;
        Ok(Some(field))
    }
}
