// Writes numbers and fields.
ghost use Rattle.std.specs.Prelude.{◌≡◌, ◌++◌, ◌<◌, ◌≤◌, ◌^◌, ◌+◌, [], List, ℕ, length, IfOk, OnOk};
ghost use Rattle.std.specs.Prelude.{OnErr, IsOkUnless, vec_len, vec_capacity};
ghost use Rattle.cy_wire.specs.Wire.{varint_bytes, field_u64, field_bytes};

use crate::WireError;
use std::alloc::Global;
use std::marker::Model;

/// The most bytes that a number of 64 bits takes.
pub(crate) const LONGEST: usize = 10;

/// Bytes in the wire form, gathered in memory: contracts see them as a list.
#[derive(Drop)]
pub struct Writer {
    out: Vec<u8>,
}

impl Model for Writer {
    ghost Value = { List ℕ };

    ghost view = { λ w. w.out.items };
}

/// Appends a number in as few bytes as it takes, where there is room for the ten of the longest.
#[tactic(auto, using(crate::proofs::Varints::varint_steps))]
pub fn push_varint(out: &mut Vec<u8>, value: u64)
    requires { vec_len out.old + 10 ≤ vec_capacity out.old }
    ensures items { out.new.items ≡ out.old.items ++ varint_bytes value }
    ensures longer { vec_len out.new ≤ vec_len out.old + 10 }
    ensures capacity { vec_capacity out.new ≡ vec_capacity out.old }
{
    let mut rest = value;
    while rest >= 128 {
        out.push_reserved((rest % 128) as u8 + 128);
        rest /= 128;
    }
    out.push_reserved(rest as u8);
}

impl Writer {
    /// No bytes yet; this takes no memory.
    pub fn new(alloc: Global) -> Self
        ensures { result ≡ [] }
    {
        Writer {
            out: Vec::new(alloc),
        }
    }

    /// No bytes yet, and room for so many.
    pub fn with_capacity(alloc: Global, bytes: usize) -> Result<Self, WireError>
        ensures ok { IfOk result (λ w. w ≡ []) }
        ensures only_memory { IsOkUnless result WireError.Memory }
    {
        let out = Vec::with_capacity(alloc, bytes)?;
        Ok(Writer { out })
    }

    /// Forgets the bytes and keeps their room.
    pub fn clear(&mut self)
        ensures { self.new ≡ [] }
    {
        self.out.clear();
    }

    /// Appends a number in as few bytes as it takes. Want of memory changes nothing.
    pub fn varint(&mut self, value: u64) -> Result<(), WireError>
        ensures ok { OnOk result (self.new ≡ self.old ++ varint_bytes value) }
        ensures err { OnErr result (self.new ≡ self.old) }
        ensures only_memory { IsOkUnless result WireError.Memory }
    {
        self.out.reserve(LONGEST)?;
        push_varint(&mut self.out, value);
        Ok(())
    }

    /// Appends bytes as they are. Want of memory changes nothing.
    pub fn bytes(&mut self, bytes: &[u8]) -> Result<(), WireError>
        ensures ok { OnOk result (self.new ≡ self.old ++ bytes.now) }
        ensures err { OnErr result (self.new ≡ self.old) }
        ensures only_memory { IsOkUnless result WireError.Memory }
    {
        self.out.extend_from_slice(bytes)?;
        Ok(())
    }

    /// Appends a field that holds a number. Want of memory changes nothing.
    pub fn field_u64(&mut self, number: u32, value: u64) -> Result<(), WireError>
        requires low { 1 ≤ number }
        requires high { number ≤ 536870911 }
        ensures ok { OnOk result (self.new ≡ self.old ++ field_u64 number value) }
        ensures err { OnErr result (self.new ≡ self.old) }
        ensures only_memory { IsOkUnless result WireError.Memory }
    {
        self.out.reserve(2 * LONGEST)?;
        push_varint(&mut self.out, u64::from(number) * 8);
        push_varint(&mut self.out, value);
        Ok(())
    }

    /// Appends a field that holds bytes. Want of memory changes nothing.
    pub fn field_bytes(&mut self, number: u32, bytes: &[u8]) -> Result<(), WireError>
        requires low { 1 ≤ number }
        requires high { number ≤ 536870911 }
        ensures ok { OnOk result (self.new ≡ self.old ++ field_bytes number bytes.now) }
        ensures err { OnErr result (self.new ≡ self.old) }
        ensures only_memory { IsOkUnless result WireError.Memory }
    {
        // Room for the whole field at once, so that a want of memory leaves nothing half written.
        self.out.reserve(bytes.len() + 2 * LONGEST)?;
        push_varint(&mut self.out, u64::from(number) * 8 + 2);
        push_varint(&mut self.out, bytes.len() as u64);
        self.out.extend_from_slice(bytes)?;
        Ok(())
    }

    /// The bytes so far.
    pub fn done(&self) -> &[u8]
        ensures { result.now ≡ self.now }
    {
        self.out.as_slice()
    }
}
