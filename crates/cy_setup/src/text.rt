// Reads a configuration file.
ghost use Rattle.std.specs.Prelude.{◌≡◌, ◌≤◌, length, IfOk};
ghost use Rattle.cy_text.specs.Fields.{size_of};
ghost use Rattle.cy_setup.specs.Comes.{ComesTo};
ghost use Rattle.cy_setup.specs.Configuration.{text_in};
ghost use Rattle.cy_setup.specs.Steps.{IsParsed};

use crate::error::{failed, refused};
use crate::{Fault, SetupError};
use cy_store::{ReadFile, Store, StoreError, read_file};
use cy_text::{TextError, Tree, fields_are_few, parse};
use std::alloc::Global;

/// The longest configuration file that is read, in bytes.
pub const LONGEST_CONFIG: u64 = 16_777_216;

// The fields of a text that is not too long.
fn parse_text(alloc: Global, name: &str, text: &[u8]) -> Result<Tree, SetupError>
    requires { length text.now ≤ 16777216 }
    ensures parsed { IsParsed name.now text.now result }
    ensures few { IfOk result (λ tree. size_of tree ≤ 4294967295) }
{
    // A text has no more fields than bytes.
    fields_are_few();
    match parse(alloc, text) {
        Ok(tree) => Ok(tree),
        Err(TextError::Memory) => Err(SetupError::Memory),
        Err(fault) => Err(refused(alloc, name, Fault::Text(fault))),
    }
}

/// Reads the fields of a configuration file.
pub(crate) fn read_text<S: Store>(
    alloc: Global,
    store: &mut S,
    name: &str,
) -> Result<Tree, SetupError>
    ensures comes { ComesTo (λ tree. tree) (text_in name.now) (λ file. file ≡ name.now)
        (S.shows store.old) (S.shows store.new) result }
    ensures few { IfOk result (λ tree. size_of tree ≤ 4294967295) }
{
    match read_file(alloc, store, name, LONGEST_CONFIG) {
        Ok(ReadFile::Whole(text)) => parse_text(alloc, name, text.as_slice()),
        Ok(ReadFile::Longer { size }) => {
            Err(refused(alloc, name, Fault::ConfigTooLarge { count: size }))
        }
        Err(StoreError::Failed) => Err(failed(alloc, name)),
        Err(StoreError::Memory) => Err(SetupError::Memory),
    }
}
