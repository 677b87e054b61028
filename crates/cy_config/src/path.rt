// Where a field stands in a text.
ghost use Rattle.std.specs.Prelude.{◌≡◌, ◌++◌, codes, IfOk};
ghost use Rattle.cy_config.specs.Checks.{index_text};

use cy_msg::Text;
use std::alloc::{AllocError, Global};

// The path of a field behind the path of its message: its name, and its number among those of its
// name where it has one.
pub(crate) fn path_of(
    alloc: Global,
    message: &str,
    name: &str,
    index: Option<usize>,
) -> Result<Text, AllocError>
    ensures { IfOk result (λ path. path ≡ message.now ++ name.now ++ index_text index) }
{
    let path = match index {
        Some(index) => format!(in alloc; "{message}{name}[{index}]")?,
        None => format!(in alloc; "{message}{name}")?,
    };
    Ok(Text::from_string(path))
}

// What stands before the paths of its fields, where that field is a message: its own path and a
// point.
pub(crate) fn path_within(
    alloc: Global,
    message: &str,
    name: &str,
    index: Option<usize>,
) -> Result<Text, AllocError>
    ensures { IfOk result (λ path. path
        ≡ (message.now ++ name.now ++ index_text index) ++ codes ".") }
{
    let mut path = path_of(alloc, message, name, index)?.into_string();
    path.push_str(".")?;
    Ok(Text::from_string(path))
}
