// The channels of a wiring, by name and by number.
ghost use Rattle.std.specs.Prelude.{◌≡◌, ◌<◌, ◌+◌, ◌^◌, ◌++◌, length, map, IfOk, OnOk};
ghost use Rattle.std.specs.Prelude.{if◌then◌else◌};
ghost use Rattle.std.specs.List.{flat_map, zip};
ghost use Rattle.cy_wiring.specs.Wiring.{channels_of, mentions_of, named, number_in};
ghost use Rattle.cy_msg.specs.Once.{IsOnce};

use cy_dag::{Config, DagComponent, DagReader};
use cy_msg::{Names, NamesError, Text};
use std::alloc::{AllocError, Global};
use std::collections::HashSet;

// All channels that are mentioned: those of the record, and then those of each component.
pub(crate) fn mentions<'a>(
    alloc: Global,
    record_channels: &'a [Text],
    components: &'a [DagComponent],
    configs: &'a [Config],
) -> Result<Vec<&'a str>, AllocError>
    requires { length configs.now ≡ length components.now }
    ensures { IfOk result (λ ms. map (λ m. m.now) ms.items
        ≡ mentions_of record_channels.now (zip components.now configs.now)) }
{
    let mut mentions = Vec::new(alloc);
    push_record(&mut mentions, record_channels)?;
    push_components(&mut mentions, components, configs)?;
    Ok(mentions)
}

// Adds the channels of a record.
fn push_record<'a>(mentions: &mut Vec<&'a str>, channels: &'a [Text]) -> Result<(), AllocError>
    ensures { OnOk result (map (λ m. m.now) mentions.new.items
        ≡ map (λ m. m.now) mentions.old.items ++ channels.now) }
{
    for channel in channels {
        mentions.push(channel.as_str())?;
    }
    Ok(())
}

// Adds the channels of components.
fn push_components<'a>(
    mentions: &mut Vec<&'a str>,
    components: &'a [DagComponent],
    configs: &'a [Config],
) -> Result<(), AllocError>
    requires { length configs.now ≡ length components.now }
    ensures { OnOk result (map (λ m. m.now) mentions.new.items
        ≡ map (λ m. m.now) mentions.old.items
        ++ flat_map channels_of (zip components.now configs.now)) }
{
    for (place, component) in components.iter().enumerate() {
        push_readers(mentions, component.readers.as_slice())?;
        mentions.push(configs[place].out.as_str())?;
    }
    Ok(())
}

// Adds the channels that are read.
fn push_readers<'a>(mentions: &mut Vec<&'a str>, readers: &'a [DagReader]) -> Result<(), AllocError>
    ensures { OnOk result (map (λ m. m.now) mentions.new.items
        ≡ map (λ m. m.now) mentions.old.items ++ map (λ r. r.channel) readers.now) }
{
    for reader in readers {
        mentions.push(reader.channel.as_str())?;
    }
    Ok(())
}

// How many different names are mentioned.
pub(crate) fn count_different(alloc: Global, mentions: &[&str]) -> Result<usize, AllocError>
    ensures { IfOk result (λ n. n ≡ length (named (map (λ m. m.now) mentions.now))) }
{
    let mut seen = HashSet::new(alloc);
    let mut count = 0;
    for mention in mentions {
        count = more(count, seen.insert(*mention)?);
    }
    Ok(count)
}

// A count, with one more where something is new.
fn more(count: usize, is_new: bool) -> usize
    requires { count + 1 < 2 ^ 64 }
    ensures { result ≡ (if is_new then count + 1 else count) }
{
    if is_new { count + 1 } else { count }
}

// The names that are mentioned, each where it is first mentioned.
pub(crate) fn names(alloc: Global, mentions: &[&str]) -> Result<Names, NamesError>
    ensures names { IfOk result (λ ns. ns ≡ named (map (λ m. m.now) mentions.now)) }
    ensures once { IfOk result (λ ns. IsOnce ns) }
{
    let mut names = Names::new(alloc);
    for mention in mentions {
        names.add(alloc, *mention)?;
    }
    Ok(names)
}

// The number of a channel.
pub(crate) fn number_in(names: &Names, channel: &str) -> u32
    requires { IsOnce names.now }
    ensures { result ≡ number_in names.now channel.now }
{
    names.number_of(channel).unwrap_or(0)
}
