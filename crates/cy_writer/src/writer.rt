// The writer of a record.
ghost use Rattle.std.specs.Prelude.{◌≡◌, IfOk, OnOk, IsErrOf, IsOkUnless};
ghost use Rattle.cy_writer.specs.Stands.{Stands, IsBroken, HasChannel, channel_count, IsThere};
ghost use Rattle.cy_writer.specs.Calls.{Starts, PutsChannel, TakesMessage, Closes, IsRefusedBroken};
ghost use Rattle.cy_writer.specs.Calls.{GoesOn};

use crate::WriteError;
use crate::error::no_memory_for_text;
use crate::writing::Writing;
use cy_msg::{Bytes, Text};
use cy_section::Channel;
use cy_store::Store;
use std::alloc::Global;

/// Writes a Cyber RT record, version 1.0 without compression or segments, into a file of a store: a
/// header, the channels, chunks of messages and an index. It keeps one chunk in memory at a time;
/// each section is one put.
///
/// A chunk ends before a message with which its body would be longer than 200,000,000 bytes, or
/// whose time is more than 20,000,000,000 nanoseconds above that of its first message.
#[derive(Drop)]
pub struct RecordWriter {
    writing: Option<Writing>,
}

// A channel with copies of its name, its type and its description.
fn channel_of(
    alloc: Global,
    name: &str,
    message_type: &str,
    proto_desc: &[u8],
) -> Result<Channel, WriteError>
    ensures channel { IfOk result (λ c. c ≡ record {
      name = name.now;
      message_type = message_type.now;
      proto_desc = proto_desc.now;
    }) }
    ensures only_memory { IsOkUnless result WriteError.Memory }
{
    Ok(Channel {
        name: Text::new(alloc, name).map_err(no_memory_for_text)?,
        message_type: Text::new(alloc, message_type).map_err(no_memory_for_text)?,
        proto_desc: Bytes::new(alloc, proto_desc).map_err(no_memory_for_text)?,
    })
}

impl RecordWriter {
    // An answer of the store's, which breaks the writer if it is `Failed`.
    #[inline(always)]
    fn broken_by(&mut self, answer: Result<(), WriteError>) -> Result<(), WriteError>
        ensures answer { result ≡ answer }
        ensures failed { IsErrOf answer WriteError.Failed → IsBroken self.new }
        ensures same { (IsErrOf answer WriteError.Failed → ⊥) → self.new ≡ self.old }
    {
        if answer == Err(WriteError::Failed) {
            self.writing = None;
        }
        answer
    }

    /// Makes the file, or empties it, and puts the header of a record that is still being written.
    pub fn start<S: Store>(alloc: Global, store: &mut S, name: &str) -> Result<Self, WriteError>
        ensures { Starts name.now (S.shows store.old) (S.shows store.new) result }
    {
        let writing = Writing::new(alloc, name)?;
        writing.begin(alloc, store)?;
        Ok(RecordWriter {
            writing: Some(writing),
        })
    }

    /// Puts the section of a channel: its name, the type of its messages and their description. The
    /// channels are numbered from 0 in the order of these calls.
    ///
    /// The record is that of the channels and messages only where each channel has a name of its
    /// own, and where they are all given before the first message.
    pub fn channel<S: Store>(
        &mut self,
        alloc: Global,
        store: &mut S,
        name: &str,
        message_type: &str,
        proto_desc: &[u8],
    ) -> Result<(), WriteError>
        requires { IsThere self.old (S.shows store.old).files }
        ensures puts { PutsChannel (Stands self.old) (Stands self.new)
            record { name = name.now; message_type = message_type.now; proto_desc = proto_desc.now }
            (S.shows store.old) (S.shows store.new) result }
        ensures goes_on { GoesOn self.old self.new (S.shows store.old) (S.shows store.new) result }
        ensures one_more { OnOk result (HasChannel self.new (channel_count self.old)) }
    {
        let Some(writing) = &mut self.writing else {
            return Err(WriteError::Broken);
        };
        let channel = channel_of(alloc, name, message_type, proto_desc)?;
        let put = writing.channel(alloc, store, channel);
        self.broken_by(put)
    }

    /// Takes a message of a channel, at a time in nanoseconds. The chunk that is kept is put before
    /// it, where it doesn't take the message.
    ///
    /// Want of memory leaves the message out, and the writer goes on; a chunk that was put stays
    /// put.
    #[inline(always)]
    pub fn message<S: Store>(
        &mut self,
        alloc: Global,
        store: &mut S,
        channel: u32,
        time: u64,
        content: &[u8],
    ) -> Result<(), WriteError>
        requires channel { HasChannel self.old channel }
        requires there { IsThere self.old (S.shows store.old).files }
        ensures takes { TakesMessage (Stands self.old) (Stands self.new) channel time content.now
            (S.shows store.old) (S.shows store.new) result }
        ensures goes_on { GoesOn self.old self.new (S.shows store.old) (S.shows store.new) result }
    {
        let Some(writing) = &mut self.writing else {
            return Err(WriteError::Broken);
        };
        let taken = writing.message(alloc, store, channel, time, content);
        self.broken_by(taken)
    }

    /// Puts the last chunk, the index and the complete header. After `Ok` the file is the record of
    /// what was given.
    pub fn close<S: Store>(self, alloc: Global, store: &mut S) -> Result<(), WriteError>
        requires { IsThere self (S.shows store.old).files }
        ensures closes { Closes (Stands self) (S.shows store.old) (S.shows store.new) result }
        ensures refused { IsRefusedBroken self (S.shows store.old) (S.shows store.new) result }
    {
        let RecordWriter { writing } = self;
        let Some(writing) = writing else {
            return Err(WriteError::Broken);
        };
        writing.close(alloc, store)
    }
}
