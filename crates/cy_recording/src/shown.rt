// The files of a record that is compared, which only contracts see.
ghost use Rattle.std.specs.Prelude.{◌≡◌};
ghost use Rattle.std.specs.FinMap.{empty};
ghost use Rattle.std.specs.Borrow.{ftrue};
ghost use Rattle.cy_store.specs.Files.{Files};
ghost use Rattle.cy_store.specs.Write.{after_write};
ghost use Rattle.cy_recording.specs.private.Stored.{files_code};

use std::marker::Model;

// Files that writes made. They exist only in contracts and proofs, and take no memory: what was put
// is compared and dropped, while a store's contract speaks of all of it.
#[derive(Drop)]
pub(crate) struct Shown {
    pub ghost files: { Files } by { files_code },
}

impl Model for Shown {
    ghost also_owns = { λ _. ftrue };
}

// A write.
#[derive(Clone, Copy, Drop)]
pub(crate) enum Note<'a> {
    Create(&'a str),
    Put(&'a str, u64, &'a [u8]),
}

impl Shown {
    ghost use Rattle.cy_recording.specs.private.Noted.{write_of};

    // No file.
    pub(crate) fn none() -> Shown
        ensures { result.files ≡ empty }
    {
        Shown {}
    }

    // The files after one more write.
    pub(crate) fn then(&self, _note: &Note<'_>) -> Shown
        ensures { result.files ≡ after_write (write_of _note.now) self.now.files }
    {
        Shown {}
    }
}
