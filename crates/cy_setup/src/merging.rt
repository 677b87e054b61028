// Reads several records, and joins them to one.
ghost use Rattle.std.specs.Prelude.{◌≡◌, ◌⊎◌, map};
ghost use Rattle.std.specs.List.{Contains};
ghost use Rattle.cy_setup.specs.Comes.{ComesTo, IsJudged};
ghost use Rattle.cy_setup.specs.Merging.{joined_in, merged_in, same_parts};
ghost use Rattle.cy_setup.specs.declared.error.Fault.TheVariants as fault;

use crate::error::{record_fault, refused};
use crate::listing::read_record;
use crate::{Fault, SetupError};
use cy_msg::Text;
use cy_reader::Record;
use cy_salvage::Merged;
use cy_store::Store;
use std::alloc::Global;
use std::thread::Threads;

// The refusal of a file by the type of one of its channels, or want of memory.
fn types_differ(alloc: Global, file: &str, channel: &str) -> SetupError
    ensures { (result ≡ SetupError.Memory) ⊎ (result ≡ SetupError.Refused
        (record { file = file.now; fault = fault.TypesDiffer channel.now })) }
{
    match Text::new(alloc, channel) {
        Ok(name) => refused(alloc, file, Fault::TypesDiffer { name }),
        Err(_) => SetupError::Memory,
    }
}

// The same by a description.
fn descriptions_differ(alloc: Global, file: &str, channel: &str) -> SetupError
    ensures { (result ≡ SetupError.Memory) ⊎ (result ≡ SetupError.Refused
        (record { file = file.now; fault = fault.DescriptionsDiffer channel.now })) }
{
    match Text::new(alloc, channel) {
        Ok(name) => refused(alloc, file, Fault::DescriptionsDiffer { name }),
        Err(_) => SetupError::Memory,
    }
}

// Tests that the channels of a later record have the types and descriptions that are known.
fn test_parts(alloc: Global, file: &str, merged: &Merged, later: &Record) -> Result<(), SetupError>
    ensures { IsJudged (λ _. tt) (same_parts file.now merged.now later.now) result }
{
    if let Some(channel) = merged.differing_type(later) {
        return Err(types_differ(alloc, file, channel));
    }
    match merged.differing_description(later) {
        Some(channel) => Err(descriptions_differ(alloc, file, channel)),
        None => Ok(()),
    }
}

// Joins a later record to those before it.
fn join(alloc: Global, file: &str, merged: Merged, later: Record) -> Result<Merged, SetupError>
    ensures { IsJudged (λ m. m) (joined_in file.now merged later) result }
{
    match test_parts(alloc, file, &merged, &later) {
        Ok(()) => match merged.join(alloc, later) {
            Ok(all) => Ok(all),
            Err(fault) => Err(record_fault(alloc, file, fault)),
        },
        Err(error) => {
            drop(later);
            drop(merged);
            Err(error)
        }
    }
}

/// Reads the records of some names, in this order, and joins them to one: each is joined before the
/// next one is read. The first thing in the way is answered. No file is changed.
pub fn read_merged<S: Store, R: Threads + Sync>(
    rt: &R,
    alloc: Global,
    store: &mut S,
    names: &[&str],
) -> Result<Merged, SetupError>
    ensures { ComesTo (λ m. m) (merged_in (map (λ n. n.now) names.now))
        (Contains (map (λ n. n.now) names.now)) (S.shows store.old) (S.shows store.new) result }
{
    let mut merged = Merged::none(alloc);
    for name in names {
        match read_record(rt, alloc, store, name) {
            Ok(later) => merged = join(alloc, name, merged, later)?,
            Err(error) => {
                drop(merged);
                return Err(error);
            }
        }
    }
    Ok(merged)
}
