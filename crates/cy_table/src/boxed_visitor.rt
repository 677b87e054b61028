// A visitor behind a pointer.
ghost use Rattle.std.specs.Prelude.{◌≡◌};

use crate::pass::TableError;
use cy_fuse::{Cursor, Visitor};
use cy_msg::{Token, Tuple};
use std::alloc::Global;
use std::marker::Model;

/// The visitor of a component. It goes from thread to thread as a pointer. Contracts see it as the
/// `VisitorView` of its visitor.
#[derive(Drop)]
pub struct BoxedVisitor {
    visitor: Box<Visitor>,
}

impl Model for BoxedVisitor {
    ghost use Rattle.cy_fuse.specs.Visitor.{VisitorView};

    ghost Value = { VisitorView };

    ghost view = { λ v. v.visitor.value };
}

impl BoxedVisitor {
    ghost use Rattle.std.specs.Prelude.{◌≡◌, ◌≤◌, ◌<◌, ◌↔◌, IfOk, IsNone};
    ghost use Rattle.cy_fuse.specs.Visitor.{arrived, visited, index_after, position_at};

    // A visitor in a box of its own. Its only error is `Memory`.
    pub(crate) fn new(alloc: Global, visitor: Visitor) -> Result<Self, TableError>
        ensures { IfOk result (λ v. v ≡ visitor) }
    {
        let visitor = Box::new(alloc, visitor)?;
        Ok(BoxedVisitor { visitor })
    }

    // The visitor alone.
    pub(crate) fn into_visitor(self) -> Visitor
        ensures { result ≡ self }
    {
        Box::into_inner(self.visitor)
    }

    pub(crate) fn arrive(&mut self, role: u8, token: Token)
        requires role { role < self.old.roles }
        requires room { 1 ≤ self.old.spare }
        ensures { self.new ≡ arrived self.old role token }
    {
        self.visitor.arrive(role, token);
    }

    // What a cursor fetches: the tuple, its position and how many tuples there are.
    pub(crate) fn try_fetch(&self, cursor: &mut Cursor) -> Option<(Tuple, u64, u64)>
        ensures found { result ≡ visited cursor.old self.now }
        ensures next { cursor.new ≡ index_after cursor.old result }
        ensures none { IsNone result ↔ IsNone (position_at cursor.old self.now) }
    {
        self.visitor.try_fetch(cursor)
    }
}
