// A thread's token at the table, and what its calls may answer.
ghost use Rattle.std.specs.Prelude.{◌≡◌};

use crate::part::Part;
use crate::view::View;
use atomic_table::Seat;
use std::alloc::{AllocError, AllocFailed};
use thiserror::Error;
use wake_core::CoreError;

/// One thread's token: with it a thread makes its steps at the table. Contracts see what the thread
/// knows by `seat_of`.
#[derive(Drop)]
pub struct Pass {
    pub(crate) seat: Seat<Part, View>,
    pub(crate) split_off: u32,
    ghost counted: { split_off ≡ seat.me.0.seat.split },
}

impl Pass {
    ghost use Rattle.std.specs.Prelude.{◌≡◌};
    ghost use Rattle.cy_table.specs.Calls.{seat_of};

    /// How many passes were split off this one and not joined yet.
    pub fn split_off(&self) -> u32
        ensures { result ≡ (seat_of self.now).split }
    {
        self.split_off
    }
}

/// There was no memory.
#[derive(Clone, Copy, Debug, PartialEq, Eq, Error)]
pub enum TableError {
    /// There was no memory.
    #[error("out of memory")]
    Memory,
}

impl From<AllocError> for TableError {
    fn from(_: AllocError) -> Self {
        TableError::Memory
    }
}

impl<T: Drop> From<AllocFailed<T>> for TableError {
    fn from(_: AllocFailed<T>) -> Self {
        TableError::Memory
    }
}

impl From<CoreError> for TableError {
    fn from(_: CoreError) -> Self {
        TableError::Memory
    }
}

/// Another thread has the croutine in hand.
#[derive(Clone, Copy, Debug, PartialEq, Eq)]
pub struct Busy;
