// The marks of a step, in room that is taken at opening.
ghost use Rattle.std.specs.Prelude.{◌≡◌, ◌<◌, ◌++◌, ◌∷◌, [], length, IfOk};

use host_view::Mark;
use std::alloc::{AllocError, Global};
use std::marker::Model;

/// How many entries and packets a step has at most.
const MOST_MARKS: usize = 128;

/// The marks of a step, at most 128. Contracts see a list.
#[derive(Drop)]
pub(crate) struct Marks {
    marks: Vec<Mark>,
}

impl Model for Marks {
    ghost use Rattle.std.specs.Prelude.{◌≤◌, List, vec_capacity};
    ghost use Rattle.host_view.specs.declared.mark.Mark.{Mark};

    ghost Value = { List Mark };

    ghost view = { λ m. m.marks.items };

    ghost invariant = { λ m. 128 ≤ vec_capacity m.marks };
}

impl Marks {
    /// A list without marks. Only this takes memory.
    pub(crate) fn new(alloc: Global) -> Result<Marks, AllocError>
        ensures { IfOk result (λ m. m ≡ []) }
    {
        let marks = Vec::with_capacity(alloc, MOST_MARKS)?;
        Ok(Marks { marks })
    }

    /// Adds a mark after the others.
    pub(crate) fn push(&mut self, mark: Mark)
        requires { length self.old < 128 }
        ensures { self.new ≡ self.old ++ mark ∷ [] }
    {
        self.marks.push_reserved(mark);
    }

    /// Drops all marks.
    pub(crate) fn clear(&mut self)
        ensures { self.new ≡ [] }
    {
        self.marks.clear();
    }

    /// The marks in order.
    pub(crate) fn as_slice(&self) -> &[Mark]
        ensures { result.now ≡ self.now }
    {
        &self.marks
    }
}
