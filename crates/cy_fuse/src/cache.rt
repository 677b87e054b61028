// A buffer that keeps the last items.
ghost use Rattle.std.specs.Prelude.{◌≡◌, ◌≤◌, ◌<◌, ◌^◌, ◌-◌, ◌↔◌, [], Some, IfOk, IsNone};
ghost use Rattle.circular_buffer.specs.Buffer.{last_item};
ghost use Rattle.cy_fuse.specs.Cache.{cache_of, filled, oldest_of, item_at, IsOutside};

use crate::FuseError;
use circular_buffer::HeapCircularBuffer;
use std::alloc::Global;
use std::marker::Model;

/// A buffer that keeps the last items of all that were filled. They are numbered from 1.
///
/// Contracts see it as a `Cache`: its size, the number of the last item, and the items that are
/// kept.
#[derive(Drop)]
pub struct CacheBuffer<T: Copy> {
    size: u32,
    tail: u64,
    items: HeapCircularBuffer<T, Global>,
}

impl<T: Copy> Model for CacheBuffer<T> {
    ghost use Rattle.cy_fuse.specs.Cache.{Cache, cache_code};

    ghost Value = { Cache T };

    ghost coded = { cache_code T.code };

    ghost use Rattle.cy_fuse.specs.private.Caching.{IsCache};

    ghost view = { λ b. record { size = b.size; tail = b.tail; kept = b.items.items } };

    ghost invariant = { λ b. IsCache b.size b.tail b.items };
}

impl<T: Copy> CacheBuffer<T> {
    /// An empty buffer that keeps so many items. It takes all the memory that it needs; its only
    /// error is `Memory`.
    pub fn with_size(alloc: Global, size: u32) -> Result<Self, FuseError>
        requires { 1 ≤ size }
        ensures { IfOk result (λ b. b ≡ cache_of size []) }
    {
        Ok(CacheBuffer {
            size,
            tail: 0,
            items: HeapCircularBuffer::with_capacity(alloc, size as usize)?,
        })
    }

    /// Fills an item in. The oldest one goes where there is no room for one more.
    pub fn fill(&mut self, item: T)
        requires { self.old.tail < 2 ^ 64 - 2 }
        ensures { self.new ≡ filled self.old item }
    {
        self.items.push_back(item);
        self.tail += 1;
    }

    /// The last item, or none where nothing was filled.
    pub fn latest(&self) -> Option<T>
        ensures item { result ≡ last_item self.now.kept }
        ensures none { IsNone result ↔ (self.now.tail ≡ 0) }
    {
        self.items.back().copied()
    }

    /// The number of the last item; 0 where nothing was filled.
    pub fn tail(&self) -> u64
        ensures tail { result ≡ self.now.tail }
        ensures within { result < 2 ^ 64 - 1 }
    {
        self.tail
    }

    /// The number of the oldest item that is kept; 1 where nothing was filled.
    pub fn oldest(&self) -> u64
        ensures { result ≡ oldest_of self.now }
    {
        self.tail.saturating_sub(u64::from(self.size)) + 1
    }

    /// The item of a number, or none where it isn't kept.
    pub fn at(&self, number: u64) -> Option<T>
        ensures item { result ≡ item_at self.now number }
        ensures none { IsNone result ↔ IsOutside self.now number }
    {
        if number < self.oldest() || number > self.tail {
            return None;
        }
        Some(self.kept(number))
    }

    /// The item of a number that is kept.
    pub(crate) fn kept(&self, number: u64) -> T
        requires from { oldest_of self.now ≤ number }
        requires within { number ≤ self.now.tail }
        ensures { item_at self.now number ≡ Some result }
    {
        match self.items.get((number - self.oldest()) as usize) {
            Some(item) => *item,
            None => unreachable!(),
        }
    }

    /// How many items it keeps.
    pub(crate) fn size(&self) -> u32
        ensures size { result ≡ self.now.size }
        ensures some { 1 ≤ result }
    {
        self.size
    }
}
