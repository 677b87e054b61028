// A record that was read.
ghost use Rattle.std.specs.Prelude.{◌≡◌, ◌≤◌, ◌<◌, ◌+◌, length, slice_get, IfSome, option_map, ◌≢◌};
ghost use Rattle.std.specs.Prelude.{IfErr};
ghost use Rattle.cy_msg.specs.Answer.{AnswersOr};
ghost use Rattle.cy_cut.specs.Heads.{IsPlaced, seen_index};
ghost use Rattle.cy_cut.specs.Sections.{longest_file};
ghost use Rattle.cy_reader.specs.Record.{record_of};
ghost use Rattle.cy_cut.specs.Cutting.{AreWithin};
ghost use Rattle.cy_reader.specs.private.Front.{cut_record};
ghost use Rattle.cy_reader.specs.Load.{FileAnswer, LoadAnswer};

use crate::front::{Front, front_of};
use crate::gathering::add_parts;
use crate::header::LONGEST_FILE;
use crate::kept::Kept;
use crate::loading::{Loading, parts_of};
use crate::{Known, LoadError, Loaded};
use cy_cut::{CutFile, Heads, KeptIndex, PlacedHead, cut_file, heads_of, push_index};
use cy_msg::{Bytes, Text};
use cy_section::{Channel, Header};
use cy_store::{ReadFile, Store, read_file};
use std::alloc::Global;
use std::marker::Model;
use std::thread::Threads;

/// The channels and messages of a file: contracts see both lists, and the file's name, length,
/// header, heads and index. The channels are numbered in the order of their first mention, by their
/// section or by a message.
#[derive(Drop)]
pub struct Record {
    name: Text,
    size: u64,
    header: Header,
    heads: Vec<PlacedHead>,
    index: Option<KeptIndex>,
    // What is kept of the file, in which the contents of messages stand.
    bodies: Vec<Bytes>,
    loading: Loading,
}

impl Model for Record {
    ghost use Rattle.cy_reader.specs.Record.{Contents, shown};
    ghost use Rattle.cy_reader.specs.private.Loading.{met_of};
    ghost use Rattle.cy_reader.specs.private.Kept.{IsKept, kept_source};

    ghost Value = { Contents };

    ghost view = { λ r. shown (kept_source r.name r.size r.header r.heads.items r.index)
        (met_of r.bodies.items r.loading) };

    ghost invariant = { λ r. IsKept r.size r.bodies.items r.index r.loading };
}

// The bytes of a file, which are not more than are read.
fn file_bytes<S: Store>(alloc: Global, store: &mut S, name: &str) -> Result<Bytes, LoadError>
    ensures { FileAnswer (S.shows store.old) (S.shows store.new) name.now result }
{
    match read_file(alloc, store, name, LONGEST_FILE)? {
        ReadFile::Whole(bytes) => Ok(Bytes::from_vec(bytes)),
        ReadFile::Longer { size } => Err(LoadError::FileTooLarge { count: size }),
    }
}

// The record of a file's bytes.
fn record_in(alloc: Global, name: &str, file: Bytes) -> Result<Record, LoadError>
    ensures record_of { AnswersOr LoadError.Memory (λ r. r) result (record_of name.now file) }
    ensures not_store { IfErr result (λ e. e ≢ LoadError.Store) }
{
    let (header, loading) = parts_of(alloc, file.as_slice())?;
    let Heads { heads, index } = heads_of(alloc, file.as_slice())?;
    let name = Text::from_string(String::from_str(alloc, name)?);
    let size = file.as_slice().len() as u64;
    let bodies = vec![in alloc; file]?;
    Ok(Record {
        name,
        size,
        header,
        heads,
        index,
        bodies,
        loading,
    })
}

/// Reads the record of a name as `load` does, but the file whole, in pieces of at most 1,048,576
/// bytes, and keeps it beside 24 bytes a message and 24 bytes a section.
pub fn load_whole<S: Store>(alloc: Global, store: &mut S, name: &str) -> Result<Record, LoadError>
    ensures { LoadAnswer (S.shows store.old) (S.shows store.new) name.now result }
{
    let file = file_bytes(alloc, store, name)?;
    record_in(alloc, name, file)
}

// The record of a file's front and sections.
#[tactic(auto, unfolding(crate::specs::private::Front::cut_record))]
fn record_of_cut<R: Threads + Sync>(
    rt: &R,
    alloc: Global,
    name: &str,
    front: Front,
    cut: CutFile,
) -> Result<Record, LoadError>
    requires within { AreWithin cut }
    requires short { front.size ≤ longest_file }
    ensures record { AnswersOr LoadError.Memory (λ r. r) result (cut_record name.now front cut) }
    ensures not_store { IfErr result (λ e. e ≢ LoadError.Store) }
{
    let CutFile {
        mut heads,
        parts,
        end,
        ends_at: _,
    } = cut;
    let (bodies, loading) = add_parts(rt, alloc, parts)?;
    let index = end?;
    push_index(&mut heads, index.as_ref())?;
    let name = Text::from_string(String::from_str(alloc, name)?);
    Ok(Record {
        name,
        size: front.size,
        header: front.header,
        heads,
        index,
        bodies,
        loading,
    })
}

/// Reads the record of a name, section by section: small ones many at a time, and longer bodies in
/// pieces of at most 1,048,576 bytes. Each byte is read once. Nothing is reserved for a section
/// that is too long or that the file ends before, and at most 65,536 bytes are read ahead of a
/// section. It keeps the bodies of the chunks and of the index, beside 24 bytes a message and 24
/// bytes a section. Once all is read, long bodies are decoded side by side, on threads that wait
/// for nobody.
pub fn load<S: Store, R: Threads + Sync>(
    rt: &R,
    alloc: Global,
    store: &mut S,
    name: &str,
) -> Result<Record, LoadError>
    ensures { LoadAnswer (S.shows store.old) (S.shows store.new) name.now result }
{
    let front = front_of(alloc, store, name)?;
    let cut = cut_file(alloc, store, name, front.size, &[front.head])?;
    record_of_cut(rt, alloc, name, front, cut)
}

impl Record {
    /// Its channels and messages, without what it says of its file.
    pub fn into_kept(self) -> Kept
        ensures { result ≡ record { channels = self.channels; messages = self.messages } }
    {
        let Record {
            name,
            size: _,
            header: _,
            heads,
            index,
            bodies,
            loading,
        } = self;
        drop(index);
        drop(heads);
        drop(name);
        Kept::new(bodies, loading)
    }

    /// The name of its file, as it was given.
    pub fn name(&self) -> &str
        ensures { result.now ≡ self.now.source.name }
    {
        self.name.as_str()
    }

    /// The header of its file.
    pub fn header(&self) -> &Header
        ensures { result.now ≡ self.now.source.header }
    {
        &self.header
    }

    /// The heads of the sections of its file, the index's included.
    pub fn heads(&self) -> &[PlacedHead]
        ensures { result.now ≡ self.now.source.heads }
    {
        self.heads.as_slice()
    }

    /// The index of its file, where it has one.
    pub fn index(&self) -> Option<&KeptIndex>
        ensures index { option_map (λ i. seen_index i.now) result ≡ self.now.source.index }
        ensures placed { IfSome result (λ i. IsPlaced i.now) }
    {
        self.index.as_ref()
    }

    /// The length of its file in bytes.
    pub fn size(&self) -> u64
        ensures size { result ≡ self.now.source.size }
        ensures short { result ≤ longest_file }
    {
        self.size
    }

    /// Its channels, in the order of their numbers.
    pub fn known(&self) -> &[Known]
        ensures { result.now ≡ self.now.channels }
    {
        self.loading.channels.list.as_slice()
    }

    /// Its channels and messages.
    pub fn loaded(&self) -> Loaded<'_>
        ensures { result ≡ record { channels = self.now.channels; messages = self.now.messages } }
    {
        Loaded::new(self.bodies.as_slice(), &self.loading)
    }

    /// The number of channels.
    pub fn channels(&self) -> u32
        ensures { result ≡ length self.now.channels }
    {
        self.loaded().channels()
    }

    /// The channel of a number. One that only messages name has an empty type and description.
    pub fn channel(&self, number: u32) -> &Channel
        requires { number < length self.now.channels }
        ensures { IfSome (slice_get self.now.channels number) (λ known. result.now
            ≡ known.channel) }
    {
        self.loaded().channel(number)
    }

    /// The number of messages.
    pub fn messages(&self) -> u32
        ensures { result ≡ length self.now.messages }
    {
        self.loaded().messages()
    }

    /// The number of a message's channel, and its time in nanoseconds.
    pub fn message(&self, place: u32) -> (u32, u64)
        requires { place < length self.now.messages }
        ensures message { IfSome (slice_get self.now.messages place) (λ m. (result.0 ≡ m.channel)
            × (result.1 ≡ m.time)) }
        ensures channel { result.0 < length self.now.channels }
    {
        self.loaded().message(place)
    }

    /// A message's content: a slice of the file.
    pub fn content(&self, place: u32) -> &[u8]
        requires { place < length self.now.messages }
        ensures { IfSome (slice_get self.now.messages place) (λ m. result.now ≡ m.content) }
    {
        self.loaded().content(place)
    }
}
