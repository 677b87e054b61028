// A stream of bytes.
ghost use Rattle.cy_store.specs.Store.{SinkView, WriteAnswer};

use crate::SinkError;

/// A stream that takes bytes, such as standard output.
pub trait Sink {
    /// What was written, where the sink tells it, and its count of faults.
    ghost shows: { Self → SinkView };

    /// Appends all bytes. After `Failed` a prefix of them was appended; want of memory appends
    /// nothing.
    fn write(&mut self, bytes: &[u8]) -> Result<(), SinkError>
        ensures { WriteAnswer (shows self.old) (shows self.new) bytes.now result };
}
