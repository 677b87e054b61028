// What is found of a record before its text is made.
ghost use Rattle.std.specs.Prelude.{◌≡◌, ◌<◌, ◌^◌, ◌+◌, length, set, IfOk, IfSome, IsOkUnless};
ghost use Rattle.std.specs.Prelude.{slice_index_or as get_or};
ghost use Rattle.std.specs.Option.{option_map};
ghost use Rattle.cy_cut.specs.Heads.{IsPlaced, seen_index};
ghost use Rattle.cy_reader.specs.Named.{message_at};
ghost use Rattle.cy_info.specs.Info.{least, greatest, chunk_bodies, index_place, counted_of};
ghost use Rattle.cy_info.specs.Info.{channels_of, index_found, times_of};
ghost use Rattle.cy_info.specs.private.Facts.{AreCounts, AreFacts, ArePlaces, ArePlacesFor};

use cy_cut::{KeptIndex, PlacedHead};
use cy_msg::Items;
use cy_reader::{LoadError, Record};
use cy_section::{HEAD_SIZE, Index, IndexEntry, SectionError, SectionKind, read_index};
use std::alloc::Global;
use std::collections::HashSet;

/// What is counted of a record, beside the numbers that its header has: places and lengths in
/// bytes, times in nanoseconds.
#[derive(Clone, Copy)]
pub struct Counted {
    /// The place of the index's head, 0 where there is none.
    pub index_position: u64,
    pub chunk_number: u64,
    pub channel_number: u64,
    /// The least time of a message, 0 where there is none.
    pub begin_time: u64,
    /// The greatest time of a message, 0 where there is none.
    pub end_time: u64,
    pub message_number: u64,
    /// The length of the file.
    pub size: u64,
}

/// What was found of a record's index.
#[derive(Drop)]
pub enum IndexFound {
    /// There is none.
    Absent,
    /// The file ends inside it.
    Cut,
    /// It is no index in the wire form.
    Unreadable,
    /// Its entries.
    Present(Items<IndexEntry>),
}

// All that is found.
#[derive(Drop)]
pub(crate) struct Facts {
    pub counted: Counted,
    pub counts: Vec<u64>,
    pub index: IndexFound,
    pub places: HashSet<(u64, u32)>,
}

// The time of a message.
fn time_at(whole: &Record, place: u32) -> u64
    requires { place < length whole.now.messages }
    ensures { result ≡ (message_at whole.now place).time }
{
    whole.message(place).1
}

// The number of a message's channel.
fn channel_at(whole: &Record, place: u32) -> u32
    requires { place < length whole.now.messages }
    ensures channel { result ≡ (message_at whole.now place).channel }
    ensures below { result < length whole.now.channels }
{
    whole.message(place).0
}

// The least time of a record's messages, 0 where there is none.
fn least_time(whole: &Record) -> u64
    ensures { result ≡ least (times_of whole.now.messages) }
{
    let count = whole.messages();
    if count == 0 {
        return 0;
    }
    let mut time = time_at(whole, 0);
    for place in 0..count {
        time = time.min(time_at(whole, place));
    }
    time
}

// The greatest time.
fn greatest_time(whole: &Record) -> u64
    ensures { result ≡ greatest (times_of whole.now.messages) }
{
    let mut time = 0u64;
    for place in 0..whole.messages() {
        time = time.max(time_at(whole, place));
    }
    time
}

// How many of the heads are those of chunk bodies.
fn chunk_bodies(heads: &[PlacedHead]) -> u64
    ensures { result ≡ chunk_bodies heads.now }
{
    let number = SectionKind::ChunkBody.number();
    let count = heads
        .iter()
        .filter(|head| head.kind.number() == number)
        .count();
    count as u64
}

// The place of an index's head, 0 where there is none.
fn index_place(index: Option<&KeptIndex>) -> u64
    ensures { result ≡ index_place (option_map (λ i. seen_index i.now) index.entry) }
{
    match index {
        Some(index) => index.at,
        None => 0,
    }
}

// What is counted of a record.
fn count_parts(whole: &Record) -> Counted
    ensures { result ≡ counted_of whole.now }
{
    Counted {
        index_position: index_place(whole.index()),
        chunk_number: chunk_bodies(whole.heads()),
        channel_number: u64::from(whole.channels()),
        begin_time: least_time(whole),
        end_time: greatest_time(whole),
        message_number: u64::from(whole.messages()),
        size: whole.size(),
    }
}

// Counts a message on a channel.
fn count_one(counts: &mut Vec<u64>, channel: u32)
    requires inside { channel < length counts.old.items }
    requires few { get_or counts.old.items channel 0 < 2 ^ 32 }
    ensures { counts.new.items ≡ set counts.old.items channel
        (get_or counts.old.items channel 0 + 1) }
{
    counts[channel as usize] += 1;
}

// The number of messages on each channel.
fn channel_counts(alloc: Global, whole: &Record) -> Result<Vec<u64>, LoadError>
    ensures counts { IfOk result (λ c. AreCounts (channels_of whole.now.messages)
        (length whole.now.channels) c.items) }
    ensures only_memory { IsOkUnless result LoadError.Memory }
{
    let mut counts = vec![in alloc; 0u64; whole.channels() as usize]?;
    for place in 0..whole.messages() {
        count_one(&mut counts, channel_at(whole, place));
    }
    Ok(counts)
}

// What was found of the index.
fn index_found(alloc: Global, index: Option<&KeptIndex>) -> Result<IndexFound, LoadError>
    requires { IfSome index (λ i. IsPlaced i.now) }
    ensures found { IfOk result (λ found. found
        ≡ index_found (option_map (λ i. seen_index i.now) index.entry)) }
    ensures only_memory { IsOkUnless result LoadError.Memory }
{
    let Some(index) = index else {
        return Ok(IndexFound::Absent);
    };
    let body = index.body.as_slice();
    if (body.len() as u64) < index.size {
        return Ok(IndexFound::Cut);
    }
    match read_index(alloc, body, index.at + HEAD_SIZE as u64) {
        Ok(Index { entries }) => Ok(IndexFound::Present(entries)),
        Err(SectionError::Memory) => Err(LoadError::Memory),
        Err(_) => Ok(IndexFound::Unreadable),
    }
}

// The places at which heads stand, each with the number of its section's type.
fn head_places(alloc: Global, heads: &[PlacedHead]) -> Result<HashSet<(u64, u32)>, LoadError>
    ensures places { IfOk result (ArePlaces heads.now) }
    ensures only_memory { IsOkUnless result LoadError.Memory }
{
    let mut places = HashSet::new(alloc);
    for head in heads {
        places.insert((head.at, head.kind.number()))?;
    }
    Ok(places)
}

// The same, where they are compared with the entries of an index: without one they take no memory.
fn places_for(
    alloc: Global,
    index: &IndexFound,
    heads: &[PlacedHead],
) -> Result<HashSet<(u64, u32)>, LoadError>
    ensures places { IfOk result (ArePlacesFor index.now heads.now) }
    ensures only_memory { IsOkUnless result LoadError.Memory }
{
    match index {
        IndexFound::Present(_) => head_places(alloc, heads),
        IndexFound::Absent | IndexFound::Cut | IndexFound::Unreadable => Ok(HashSet::new(alloc)),
    }
}

// All that is found of a record.
pub(crate) fn facts_of(alloc: Global, whole: &Record) -> Result<Facts, LoadError>
    ensures facts { IfOk result (AreFacts whole.now) }
    ensures only_memory { IsOkUnless result LoadError.Memory }
{
    let counts = channel_counts(alloc, whole)?;
    let index = index_found(alloc, whole.index())?;
    let places = places_for(alloc, &index, whole.heads())?;
    Ok(Facts {
        counted: count_parts(whole),
        counts,
        index,
        places,
    })
}
