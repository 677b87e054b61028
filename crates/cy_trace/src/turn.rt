// The name of a tape that comes next, where its names come in turns.

/// The number of the name that comes next in turns.
#[derive(Clone, Copy)]
pub(crate) struct Turn {
    /// The number.
    pub(crate) number: u32,
    /// Whether the message before came in its turn. Where names come in no turns, this one is not
    /// likely.
    pub(crate) is_kept: bool,
}

impl Turn {
    /// That of the first name.
    pub(crate) fn first() -> Self {
        Turn {
            number: 0,
            is_kept: true,
        }
    }

    /// The turn behind a message of a name, of so many: behind the last one comes the first.
    #[inline(always)]
    pub(crate) fn after(self, number: u32, names: usize) -> Self {
        let next = number.wrapping_add(1);
        Turn {
            number: if (next as usize) < names { next } else { 0 },
            is_kept: number == self.number,
        }
    }
}
