// What a tool answers where it did not do its work.
ghost use Rattle.std.specs.Prelude.{◌≡◌};
ghost use Rattle.cy_tools.specs.Causes.{error_of_load, error_of_write};

use cy_reader::LoadError;
use cy_writer::WriteError;

/// The files of a tool.
#[derive(Clone, Copy, Debug, PartialEq, Eq)]
pub enum File {
    /// The one that it reads.
    Input,
    /// The one that it writes.
    Output,
}

/// Why a tool did not do its work.
#[derive(Clone, Copy, Debug, PartialEq, Eq)]
pub enum ToolError {
    /// The file that is read is refused: this is its first fault, or the limit that it passes. It
    /// is never `LoadError::Store` or `LoadError::Memory`.
    Load(LoadError),
    /// The store failed at this file.
    Store(File),
    /// There is no memory.
    Memory,
}

impl From<LoadError> for ToolError {
    ghost from_gives = { λ error e. e ≡ error_of_load error };

    fn from(error: LoadError) -> Self {
        match error {
            LoadError::Store => ToolError::Store(File::Input),
            LoadError::Memory => ToolError::Memory,
            error => ToolError::Load(error),
        }
    }
}

impl From<WriteError> for ToolError {
    ghost from_gives = { λ error e. e ≡ error_of_write error };

    fn from(error: WriteError) -> Self {
        match error {
            WriteError::Failed | WriteError::Broken => ToolError::Store(File::Output),
            WriteError::Memory => ToolError::Memory,
        }
    }
}
