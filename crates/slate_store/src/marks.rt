//! The marks of the calls to come.
ghost use Rattle.std.specs.Prelude.{◌≡◌, ◌∷◌, drop};
ghost use Rattle.slate_store.specs.StoreCalls.{next_mark};

use crate::mark::Mark;
use std::marker::Model;

/// The marks of the calls to come, which contracts see as the list of them. After its end each call is good.
#[derive(Debug, Drop)]
pub(crate) struct Marks {
    marks: Vec<Mark>,
    // The place of the next call's mark.
    next: usize,
    // The next call's mark, where it was set.
    set: Option<Mark>,
}

impl Model for Marks {
    ghost use Rattle.std.specs.Prelude.{List, drop};
    ghost use Rattle.slate_store.specs.InMemory.{marks_of};
    ghost use Rattle.slate_store.specs.declared.mark.Mark.{Mark as MarkValue};

    ghost Value = { List MarkValue };

    ghost view = { λ a. marks_of a.set (drop a.next a.marks.items) };
}

impl Marks {
    /// These marks.
    pub(crate) fn new(marks: Vec<Mark>) -> Marks
        ensures { result ≡ marks.items }
    {
        Marks {
            marks,
            next: 0,
            set: None,
        }
    }

    /// Gives the next call another mark.
    pub(crate) fn set(&mut self, mark: Mark)
        ensures { self.new ≡ mark ∷ drop 1 self.old }
    {
        self.set = Some(mark);
    }

    /// The mark of the next call.
    pub(crate) fn first(&self) -> Mark
        ensures { result ≡ next_mark self.now }
    {
        match (self.set, self.marks.get(self.next)) {
            (Some(mark), _) => mark,
            (None, Some(mark)) => *mark,
            (None, None) => Mark::Good,
        }
    }

    /// Takes the mark of the next call.
    pub(crate) fn take(&mut self) -> Mark
        ensures mark { result ≡ next_mark self.old }
        ensures rest { self.new ≡ drop 1 self.old }
    {
        let mark = self.first();
        self.set = None;
        if self.next < self.marks.len() {
            self.next += 1;
        }
        mark
    }
}
