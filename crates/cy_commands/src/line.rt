// Lines that are told.
use cy_msg::Bytes;

/// A line, which takes no memory where it tells of a fault.
#[derive(Drop)]
pub enum Line<'a> {
    /// A line as it stands.
    Fixed(&'a str),
    /// The program's name, a file's name and what befell it.
    Named(&'a str, &'a str),
    /// A line that was made before.
    Made(Bytes),
}
