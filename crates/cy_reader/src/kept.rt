// What is kept of records: their channels and messages, and the bodies in which contents are.
ghost use Rattle.std.specs.Prelude.{◌≡◌, ◌≢◌, ◌≤◌, ◌<◌, ◌+◌, ◌^◌, ℕ, All, length, map, nat_lt};
ghost use Rattle.std.specs.Prelude.{slice_get, Some, None, IfOk, IfErr, IsOkUnless};
ghost use Rattle.cy_msg.specs.Answer.{AnswersOr};
ghost use Rattle.cy_cut.specs.Cutting.{bytes_of, seen_part};
ghost use Rattle.cy_cut.specs.Sections.{longest_file};
ghost use Rattle.cy_reader.specs.Record.{Message, nothing, add_sections};
ghost use Rattle.cy_reader.specs.United.{IsInTime, met_joined};
ghost use Rattle.cy_reader.specs.private.Loading.{IsSound, met_of};

use crate::gathering::add_parts;
use crate::loading::Loading;
use crate::uniting::join_loading;
use crate::{Known, LoadError, Loaded};
use cy_cut::Part;
use cy_msg::Bytes;
use std::alloc::Global;
use std::marker::Model;
use std::thread::Threads;

/// Channels and messages that are kept: contracts see both lists. The bodies in which the contents
/// of messages are belong to them.
#[derive(Drop)]
pub struct Kept {
    bodies: Vec<Bytes>,
    loading: Loading,
}

impl Model for Kept {
    ghost use Rattle.std.specs.Prelude.{length};
    ghost use Rattle.cy_reader.specs.Record.{Met};
    ghost use Rattle.cy_reader.specs.private.Loading.{IsSound, met_of};

    ghost Value = { Met };

    ghost view = { λ k. met_of k.bodies.items k.loading };

    ghost invariant = { λ k. IsSound (length k.bodies.items) k.loading };
}

// Whether numbers of 32 bits count so many and so many more.
fn has_room(many: usize, more: usize) -> bool
    ensures { result ≡ nat_lt (many + more) (2 ^ 32) }
{
    many.saturating_add(more) <= u32::MAX as usize
}

impl Kept {
    // What was met in these bodies.
    pub(crate) fn new(bodies: Vec<Bytes>, loading: Loading) -> Self
        requires { IsSound (length bodies.items) loading }
        ensures { result ≡ met_of bodies.items loading }
    {
        Kept { bodies, loading }
    }

    /// No channels and no messages.
    pub fn none(alloc: Global) -> Self
        ensures { result ≡ nothing }
    {
        Kept {
            bodies: Vec::new(alloc),
            loading: Loading::none(alloc),
        }
    }

    /// What sections say, in their order, or the first fault or limit. Long bodies are decoded side
    /// by side, on threads that wait for nobody.
    pub fn of_parts<R: Threads + Sync>(
        rt: &R,
        alloc: Global,
        parts: Vec<Part>,
    ) -> Result<Self, LoadError>
        requires within { All (λ p. p.body_at + length p.body ≤ longest_file) parts.items }
        requires all { bytes_of parts.items ≤ longest_file }
        ensures met { AnswersOr LoadError.Memory (λ k. k) result
            (add_sections (map seen_part parts.items) None nothing) }
        ensures not_store { IfErr result (λ e. e ≢ LoadError.Store) }
    {
        let (bodies, loading) = add_parts(rt, alloc, parts)?;
        Ok(Kept { bodies, loading })
    }

    /// The channels, in the order of their numbers.
    pub fn known(&self) -> &[Known]
        ensures { result.now ≡ self.now.channels }
    {
        self.loading.channels.list.as_slice()
    }

    /// The channels and messages. Each message is on a channel that is kept.
    pub fn loaded(&self) -> Loaded<'_>
        ensures met { result ≡ self.now }
        ensures stand { (n : ℕ) (m : Message) → slice_get self.now.messages n ≡ Some m
            → m.channel < length self.now.channels }
    {
        Loaded::new(self.bodies.as_slice(), &self.loading)
    }

    /// Joins what is kept of a later record: its messages are behind the others, on channels that
    /// are united by their names. A channel keeps its type and its description, and takes those
    /// that it lacks. The united channels are within the limits of one record.
    pub fn join(self, alloc: Global, later: Kept) -> Result<Self, LoadError>
        ensures joined { AnswersOr LoadError.Memory (λ k. k) result (met_joined later self) }
        ensures not_store { IfErr result (λ e. e ≢ LoadError.Store) }
    {
        let Kept {
            mut bodies,
            mut loading,
        } = self;
        let Kept {
            bodies: mut more,
            loading: later,
        } = later;
        // A message and a body take bytes of their file, and all files have fewer than this.
        if !has_room(bodies.len(), more.len())
            || !has_room(loading.messages.len(), later.messages.len())
        {
            return Err(LoadError::Memory);
        }
        let (many, further) = (bodies.len() as u32, more.len() as u32);
        join_loading(alloc, many, &mut loading, further, later)?;
        bodies.append(&mut more)?;
        Ok(Kept { bodies, loading })
    }

    /// The same with the messages in the order of their times. Messages of one time keep their
    /// order. Its only error is `Memory`.
    pub fn in_time(self) -> Result<Self, LoadError>
        ensures channels { IfOk result (λ k. k.channels ≡ self.channels) }
        ensures ordered { IfOk result (λ k. IsInTime self.messages k.messages) }
        ensures only_memory { IsOkUnless result LoadError.Memory }
    {
        let Kept {
            bodies,
            mut loading,
        } = self;
        loading.messages.sort_by_key(|message| message.time)?;
        Ok(Kept { bodies, loading })
    }
}
