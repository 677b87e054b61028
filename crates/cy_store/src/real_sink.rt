// Streams of the machine.
ghost use Rattle.std.specs.Prelude.{◌≡◌, ◌≢◌, ◌≤◌, ℕ, ◌++◌, take, OnOk, IsErrOf};
ghost use Rattle.std.specs.Option.{option_map};
ghost use Rattle.std.specs.Io.KnownBytes.{Appends};
ghost use Rattle.std.specs.IoError.{error_kind};
ghost use Rattle.cy_store.specs.Store.{WriteAnswer};
ghost use Rattle.cy_store.specs.Memory.{next};
ghost use Rattle.cy_store.specs.Real.{untold_sink};

use crate::{Sink, SinkError};
use std::io;
use std::io::{ErrorKind, Write};
use std::marker::Model;

/// A stream of the machine, as standard output by `RealSink::new(rt.stdout())`. It tells no
/// content.
///
/// Each write is handed on whole before it returns, so that a device that is full is seen at once.
/// Its count of faults is of 64 bits, and stays at its last value.
#[derive(Drop)]
pub struct RealSink<W: Write> {
    stream: W,
    faults: u64,
}

impl<W: Write> Model for RealSink<W> {
    ghost use Rattle.cy_store.specs.Real.{Stream};

    ghost Value = { Stream };

    ghost view = { λ s. record { faults = s.faults; contents = W.contents s.stream } };
}

impl<W: Write> RealSink<W> {
    /// A sink that writes to the stream, with no fault yet.
    pub fn new(stream: W) -> Self
        ensures { result ≡ record { faults = 0; contents = W.contents stream } }
    {
        RealSink { stream, faults: 0 }
    }

    // Counts an error as a fault, unless it is want of memory, and says which.
    fn fault(&mut self, error: io::Error) -> SinkError
        ensures memory { error_kind error ≡ ErrorKind.OutOfMemory → (result ≡ SinkError.Memory)
            × (self.new ≡ self.old) }
        ensures failed { error_kind error ≢ ErrorKind.OutOfMemory → (result ≡ SinkError.Failed)
            × (self.new ≡ record self.old { faults = next self.old.faults }) }
        ensures no_less { self.old.faults ≤ self.new.faults }
    {
        if error.kind() == ErrorKind::OutOfMemory {
            return SinkError::Memory;
        }
        self.faults = self.faults.saturating_add(1);
        SinkError::Failed
    }
}

// Hands all bytes on. A write that was interrupted is made again, and one of no byte is an error.
fn hand_on<W: Write>(stream: &mut W, bytes: &[u8]) -> io::Result<()>
    ensures { OnOk result (Appends (W.contents stream.old) (W.contents stream.new) bytes.now) }
{
    stream.write_all(bytes)?;
    stream.flush()
}

impl<W: Write> Sink for RealSink<W> {
    ghost shows = { untold_sink };

    fn write(&mut self, bytes: &[u8]) -> Result<(), SinkError>
        ensures answer { WriteAnswer (untold_sink self.old)
            (untold_sink self.new) bytes.now result }
        ensures handed { OnOk result (Appends self.old.contents self.new.contents bytes.now) }
    {
        match hand_on(&mut self.stream, bytes) {
            Ok(()) => Ok(()),
            Err(e) => Err(self.fault(e)),
        }
    }
}
