// A stream in memory.
ghost use Rattle.std.specs.Prelude.{◌≡◌, ◌≤◌, ℕ, ◌++◌, take, true, false, OnOk, OnErr, IfErr};
ghost use Rattle.std.specs.Prelude.{IsErrOf};
ghost use Rattle.std.specs.Option.{option_map};
ghost use Rattle.std.specs.FinSet.{insert};
ghost use Rattle.cy_store.specs.Store.{WriteAnswer};
ghost use Rattle.cy_store.specs.Output.{new_output, sink_of, with_write, with_write_fault};
ghost use Rattle.cy_store.specs.Output.{fails_next};

use crate::{Sink, SinkError};
use std::alloc::Global;
use std::collections::BTreeSet;
use std::marker::Model;

/// A stream in memory, any write to which can be made to fail.
///
/// Its counts are of 64 bits, and stay at their last value.
#[derive(Drop)]
pub struct MemSink {
    bytes: Vec<u8>,
    faults: u64,
    writes: u64,
    failing: BTreeSet<u64>,
}

impl Model for MemSink {
    ghost use Rattle.std.specs.FinSet.{from_list};
    ghost use Rattle.cy_store.specs.Output.{Output, output_code};

    ghost Value = { Output };

    ghost coded = { output_code };

    ghost view = { λ s. record {
      bytes = s.bytes.items;
      faults = s.faults;
      writes = s.writes;
      failing = from_list s.failing.keys;
    } };
}

impl MemSink {
    /// An empty stream, no write to which is to fail.
    pub fn new(alloc: Global) -> Self
        ensures { result ≡ new_output }
    {
        MemSink {
            bytes: Vec::new(alloc),
            faults: 0,
            writes: 0,
            failing: BTreeSet::new(alloc),
        }
    }

    /// Makes the write of this number fail, counted from 1: it appends nothing. It answers no other
    /// error than `Memory`.
    pub fn fail_at(&mut self, write: u64) -> Result<(), SinkError>
        ensures ok { OnOk result
            (self.new ≡ record self.old { failing = insert self.old.failing write }) }
        ensures err { OnErr result (self.new ≡ self.old) }
        ensures kind { IfErr result (λ e. e ≡ SinkError.Memory) }
    {
        self.failing.insert(write)?;
        Ok(())
    }

    /// The bytes that were written.
    pub fn bytes(&self) -> &[u8]
        ensures { result.now ≡ self.now.bytes }
    {
        self.bytes.as_slice()
    }

    // Counts a write, and answers whether it is to fail.
    #[tactic(auto, using(crate::proofs::Numbers::contains_number))]
    fn begin_write(&mut self) -> bool
        ensures counted { self.new ≡ with_write self.old }
        ensures plan { result ≡ fails_next self.old }
    {
        self.writes = self.writes.saturating_add(1);
        self.failing.contains(&self.writes)
    }

    // Counts a fault.
    fn fault(&mut self) -> SinkError
        ensures counted { self.new ≡ with_write_fault self.old }
        ensures no_less { self.old.faults ≤ self.new.faults }
        ensures kind { result ≡ SinkError.Failed }
    {
        self.faults = self.faults.saturating_add(1);
        SinkError::Failed
    }
}

impl Sink for MemSink {
    ghost shows = { sink_of };

    fn write(&mut self, bytes: &[u8]) -> Result<(), SinkError>
        ensures answer { WriteAnswer (sink_of self.old) (sink_of self.new) bytes.now result }

        ensures ok { OnOk result ((fails_next self.old ≡ false)
            × (self.new ≡ record (with_write self.old) { bytes = self.old.bytes ++ bytes.now })) }
        ensures memory { IsErrOf result SinkError.Memory → self.new ≡ with_write self.old }
        ensures failed { IsErrOf result SinkError.Failed → (fails_next self.old ≡ true)
            × (self.new ≡ with_write_fault (with_write self.old)) }
    {
        if self.begin_write() {
            return Err(self.fault());
        }
        self.bytes.extend_from_slice(bytes)?;
        Ok(())
    }
}
