// Reads the text of a trace.
ghost use Rattle.std.specs.Prelude.{◌≡◌, ◌≤◌, length, IfOk};
ghost use Rattle.cy_setup.specs.Comes.{ComesTo};
ghost use Rattle.cy_setup.specs.TraceFile.{longest_trace, trace_in};

use crate::error::{failed, refused};
use crate::{Fault, SetupError};
use cy_store::{ReadFile, Store, StoreError, read_file};
use std::alloc::Global;

/// The longest text of a trace that is read, in bytes.
const LONGEST_TRACE: u64 = 1_073_741_824;

/// Reads the text of a trace. Its size is asked for before anything is read or memory taken, and
/// one that is too large is refused. No file is changed.
pub fn read_trace_file<S: Store>(
    alloc: Global,
    store: &mut S,
    name: &str,
) -> Result<Vec<u8>, SetupError>
    ensures comes { ComesTo (λ text. text.items) (trace_in name.now) (λ file. file ≡ name.now)
        (S.shows store.old) (S.shows store.new) result }
    ensures short { IfOk result (λ text. length text.items ≤ longest_trace) }
{
    match read_file(alloc, store, name, LONGEST_TRACE) {
        Ok(ReadFile::Whole(text)) => Ok(text),
        Ok(ReadFile::Longer { size }) => {
            Err(refused(alloc, name, Fault::TraceTooLarge { count: size }))
        }
        Err(StoreError::Failed) => Err(failed(alloc, name)),
        Err(StoreError::Memory) => Err(SetupError::Memory),
    }
}
