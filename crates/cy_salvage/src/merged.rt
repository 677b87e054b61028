// The records that are joined to one.
ghost use Rattle.std.specs.Prelude.{◌≡◌, ◌≢◌, option_map, IfErr, IfOk, IsOkUnless};
ghost use Rattle.cy_msg.specs.Answer.{AnswersOr};
ghost use Rattle.cy_reader.specs.Said.{StandOnChannels};
ghost use Rattle.cy_salvage.specs.Joined.{IsOrdered, differs, first_differing, no_records};
ghost use Rattle.cy_salvage.specs.Joined.{parts_differ, record_joined};

use cy_reader::{Kept, Known, LONGEST_FILE, LoadError, Loaded, Record, place_of};
use std::alloc::Global;
use std::marker::Model;

/// The channels and messages of several records together: contracts see both lists, and the bytes
/// of all files. The bodies in which the contents of messages stand are those of the records.
#[derive(Drop)]
pub struct Merged {
    size: u64,
    kept: Kept,
}

impl Model for Merged {
    ghost use Rattle.cy_salvage.specs.Joined.{Gathered};
    ghost use Rattle.cy_salvage.specs.private.Uniting.{IsUnited};

    ghost Value = { Gathered };

    ghost view = { λ m. record { size = m.size; met = m.kept } };

    ghost invariant = { λ m. IsUnited m.size m.kept };
}

// Whether two types or descriptions differ.
fn parts_differ(kept: &[u8], later: &[u8]) -> bool
    ensures { result ≡ parts_differ kept.now later.now }
{
    !kept.is_empty() && !later.is_empty() && kept != later
}

// Whether the type of a channel differs from that of the channel that is kept under its name.
fn types_differ(channels: &[Known], later: &Known) -> bool
    ensures { result ≡ differs (λ c. c.message_type) channels.now later.now }
{
    match place_of(channels, later.channel.name.as_str()) {
        Some(place) => parts_differ(
            channels[place].channel.message_type.as_str().as_bytes(),
            later.channel.message_type.as_str().as_bytes(),
        ),
        None => false,
    }
}

// The same of its description.
fn descriptions_differ(channels: &[Known], later: &Known) -> bool
    ensures { result ≡ differs (λ c. c.proto_desc) channels.now later.now }
{
    match place_of(channels, later.channel.name.as_str()) {
        Some(place) => parts_differ(
            channels[place].channel.proto_desc.as_slice(),
            later.channel.proto_desc.as_slice(),
        ),
        None => false,
    }
}

impl Merged {
    /// No record.
    pub fn none(alloc: Global) -> Self
        ensures { result ≡ no_records }
    {
        Merged {
            size: 0,
            kept: Kept::none(alloc),
        }
    }

    /// The name of the first channel of a later record whose type differs from the one that is
    /// kept: neither of them is empty.
    pub fn differing_type<'a>(&self, later: &'a Record) -> Option<&'a str>
        ensures { option_map (λ n. n.now) result ≡ first_differing (λ c. c.message_type)
            self.now.met.channels later.now.channels }
    {
        let channels = self.kept.known();
        let known = later
            .known()
            .iter()
            .find(|known| types_differ(channels, known))?;
        Some(known.channel.name.as_str())
    }

    /// The same of descriptions.
    pub fn differing_description<'a>(&self, later: &'a Record) -> Option<&'a str>
        ensures { option_map (λ n. n.now) result ≡ first_differing (λ c. c.proto_desc)
            self.now.met.channels later.now.channels }
    {
        let channels = self.kept.known();
        let known = later
            .known()
            .iter()
            .find(|known| descriptions_differ(channels, known))?;
        Some(known.channel.name.as_str())
    }

    /// Joins a later record: its messages stand behind the others, on channels that are united by
    /// their names. A channel keeps its type and its description, and takes those that it lacks.
    /// The files together may not be longer than one file, and the united channels are within the
    /// limits of one record.
    #[tactic(auto, unfolding(crate::specs::Joined::record_joined))]
    pub fn join(self, alloc: Global, later: Record) -> Result<Self, LoadError>
        ensures joined { AnswersOr LoadError.Memory (λ m. m) result (record_joined self later) }
        ensures not_store { IfErr result (λ e. e ≢ LoadError.Store) }
    {
        let size = self.size + later.size();
        if size > LONGEST_FILE {
            drop(later);
            drop(self);
            return Err(LoadError::FileTooLarge { count: size });
        }
        let Merged { size: _, kept } = self;
        let kept = kept.join(alloc, later.into_kept())?;
        Ok(Merged { size, kept })
    }

    /// The same with the messages in the order of their times. Those of one time stand as they
    /// stood. Its only error is `Memory`.
    pub fn in_time(self) -> Result<Self, LoadError>
        ensures ordered { IfOk result (IsOrdered self) }
        ensures only_memory { IsOkUnless result LoadError.Memory }
    {
        let Merged { size, kept } = self;
        let kept = kept.in_time()?;
        Ok(Merged { size, kept })
    }

    /// The channels and messages.
    pub fn loaded(&self) -> Loaded<'_>
        ensures met { result ≡ self.now.met }
        ensures stand { StandOnChannels self.now.met.channels self.now.met.messages }
    {
        self.kept.loaded()
    }
}
