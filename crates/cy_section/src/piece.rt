// Bytes of sections, gathered in memory.
ghost use Rattle.std.specs.Prelude.{◌≡◌, ◌+◌, ◌≤◌, ◌++◌, [], List, ℕ, length, take, drop, OnOk};
ghost use Rattle.std.specs.Prelude.{OnErr, IsOkUnless};

use crate::SectionError;
use bytes::BufMut;
use std::alloc::Global;
use std::marker::Model;

/// Bytes of sections, gathered in memory: contracts see them as a list.
#[derive(Drop)]
pub struct Piece {
    pub(crate) bytes: Vec<u8>,
}

impl Model for Piece {
    ghost Value = { List ℕ };

    ghost view = { λ p. p.bytes.items };
}

/// Writes over the bytes from a place on.
fn write_over(bytes: &mut [u8], start: usize, front: &[u8])
    requires { start + length front.now ≤ length bytes.old }
    ensures after { bytes.new ≡ take start bytes.old
        ++ (front.now ++ drop (start + length front.now) bytes.old) }
    ensures len { length bytes.new ≡ length bytes.old }
{
    bytes[start..start + front.len()].copy_from_slice(front);
}

impl Piece {
    /// No bytes yet; this takes no memory.
    pub fn new(alloc: Global) -> Self
        ensures { result ≡ [] }
    {
        Piece {
            bytes: Vec::new(alloc),
        }
    }

    /// The bytes so far.
    pub fn bytes(&self) -> &[u8]
        ensures { result.now ≡ self.now }
    {
        self.bytes.as_slice()
    }

    /// Forgets the bytes and keeps their room.
    pub fn clear(&mut self)
        ensures { self.new ≡ [] }
    {
        self.bytes.clear();
    }

    /// The bytes as a `Vec`, with no copy.
    pub fn into_vec(self) -> Vec<u8>
        ensures { result.items ≡ self }
    {
        let Piece { bytes } = self;
        bytes
    }

    /// Makes room for so many further bytes, and for more where the bytes have to move. The bytes
    /// stay, whatever the answer.
    pub fn reserve(&mut self, additional: usize) -> Result<(), SectionError>
        ensures same { self.new ≡ self.old }
        ensures only_memory { IsOkUnless result SectionError.Memory }
    {
        self.bytes.reserve(additional)?;
        Ok(())
    }

    /// What gives the bytes their memory.
    pub(crate) fn alloc(&self) -> Global {
        *self.bytes.allocator()
    }

    /// Forgets the bytes from a place on.
    pub(crate) fn truncate(&mut self, len: usize)
        ensures { self.new ≡ take len self.old }
    {
        self.bytes.truncate(len);
    }

    /// Writes over the bytes from a place on.
    pub(crate) fn overwrite(&mut self, start: usize, front: &[u8])
        requires { start + length front.now ≤ length self.old }
        ensures { self.new ≡ take start self.old
            ++ (front.now ++ drop (start + length front.now) self.old) }
    {
        write_over(self.bytes.as_mut_slice(), start, front);
    }

    /// Appends two runs of bytes, one after the other. Want of memory changes nothing.
    pub(crate) fn append(&mut self, first: &[u8], second: &[u8]) -> Result<(), SectionError>
        ensures ok { OnOk result (self.new ≡ self.old ++ (first.now ++ second.now)) }
        ensures err { OnErr result (self.new ≡ self.old) }
        ensures only_memory { IsOkUnless result SectionError.Memory }
    {
        // Room for both at once, so that a want of memory leaves nothing half written.
        self.bytes.reserve(first.len() + second.len())?;
        self.bytes.put_slice(first)?;
        self.bytes.put_slice(second)?;
        Ok(())
    }
}
