// Where a value is.
ghost use Rattle.std.specs.Prelude.{◌≡◌, IfOk, IfErr};
ghost use Rattle.cy_value.specs.Forms.{is_same};

use crate::ScalarKind;
use cy_msg::Items;
use std::alloc::{AllocError, Global};

/// The most numbers that a path has.
pub const LONGEST_PATH: usize = 16;

/// Where the value of a message is.
#[derive(Drop)]
pub struct ValueForm {
    /// The numbers of the fields that the value is in, from the outside in, and then of its own.
    pub path: Items<u32>,
    /// The kind of its field.
    pub kind: ScalarKind,
    /// By what a number with a point is multiplied.
    pub scale: u64,
}

impl ValueForm {
    /// Whether another form is the same.
    pub fn is_same(&self, other: &ValueForm) -> bool
        ensures { result ≡ is_same self.now other.now }
    {
        self.path.as_slice() == other.path.as_slice()
            && self.kind.name() == other.kind.name()
            && self.scale == other.scale
    }

    /// A copy. The only error is want of memory.
    pub fn copy(&self, alloc: Global) -> Result<Self, AllocError>
        ensures { IfOk result (λ form. form ≡ self.now) }
    {
        let mut path = Vec::new(alloc);
        path.extend_from_slice(self.path.as_slice())?;
        Ok(ValueForm {
            path: Items::new(path),
            kind: self.kind,
            scale: self.scale,
        })
    }
}
