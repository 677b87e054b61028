// Where the next fetch of a reader begins.
ghost use Rattle.std.specs.Prelude.{◌≡◌, ◌↔◌, IsNone};
ghost use Rattle.cy_fuse.specs.Fetch.{fetch};
ghost use Rattle.cy_fuse.specs.Cache.{fetched, next_index};

use crate::{CacheBuffer, Overflow, fetch_at};
use std::marker::Model;

/// The place in a buffer from which a reader fetches next. Contracts see it as its index.
#[derive(Clone, Copy, Debug, PartialEq, Eq)]
pub struct Cursor {
    index: u64,
}

impl Model for Cursor {
    ghost use Rattle.std.specs.Prelude.{ℕ};

    ghost Value = { ℕ };

    ghost view = { λ c. c.index };

    ghost inverse = { λ n. record { index = n } };
}

impl Default for Cursor {
    fn default() -> Self
        ensures { result ≡ 0 }
    {
        Cursor::new()
    }
}

impl Cursor {
    /// The cursor of a reader that fetched nothing yet.
    pub fn new() -> Self
        ensures { result ≡ 0 }
    {
        Cursor { index: 0 }
    }

    /// The cursor at an index.
    pub fn at(index: u64) -> Self
        ensures { result ≡ index }
    {
        Cursor { index }
    }

    /// The index.
    pub fn next(&self) -> u64
        ensures { result ≡ self.now }
    {
        self.index
    }

    /// Fetches an item by the fetch rule, and its number; `overflow` says which one where the item
    /// of the index isn't kept any more. The cursor is then behind it; where nothing is found it
    /// stays.
    #[tactic(auto, using(crate::proofs::Fetched::fetch_found))]
    pub fn fetch<T: Copy>(
        &mut self,
        buffer: &CacheBuffer<T>,
        overflow: Overflow,
    ) -> Option<(T, u64)>
        ensures found { result ≡ fetched self.old buffer.now overflow }
        ensures next { self.new ≡ next_index self.old result }
        ensures none { IsNone result
            ↔ IsNone (fetch self.old buffer.now.tail buffer.now.size overflow) }
    {
        let number = fetch_at(self.index, buffer.tail(), buffer.size(), overflow)?;
        self.index = number + 1;
        Some((buffer.kept(number), number))
    }
}
