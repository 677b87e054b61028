// What making the text may answer in place of it.
use thiserror::Error;

/// What [`check_text`](crate::check_text) may answer in place of a text.
#[derive(Clone, Copy, Debug, PartialEq, Eq, Error)]
pub enum CheckError {
    /// There is no memory.
    #[error("out of memory")]
    Memory,
}
