// The words that the machine gives a program.
ghost use Rattle.std.specs.Prelude.{◌≡◌, map, drop, string_bytes, IfOk};
ghost use Rattle.std.specs.Vec.Iter.{into_iter_items};

use cy_msg::Text;
use std::alloc::{AllocError, Global};
use std::env::{self, Args};
use std::io::ErrorKind;

// All arguments behind the first one, which is the program's name.
fn words_behind(alloc: Global, args: Args) -> Result<Vec<Text>, AllocError>
    ensures { IfOk result (λ words. words.items
        ≡ map string_bytes (drop 1 (into_iter_items args))) }
{
    let mut words = Vec::new(alloc);
    let mut left = args;
    left.next();
    for word in left {
        words.push(Text::from_string(word))?;
    }
    Ok(words)
}

/// The words after the program's name; none where one of them is no UTF-8, since such words are of
/// no known form. Its only error is want of memory.
pub fn machine_words(rt: &HostRuntime) -> Result<Vec<Text>, AllocError> {
    match env::args(rt) {
        Ok(args) => words_behind(rt.alloc(), args),
        Err(error) if error.kind() == ErrorKind::OutOfMemory => Err(AllocError),
        Err(_) => Ok(Vec::new(rt.alloc())),
    }
}
