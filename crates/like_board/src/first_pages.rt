// Each page's count at the start and its mark, as the rule of a board sees them. They exist only in proofs, and take no
// memory.
ghost use Rattle.std.specs.Prelude.{◌≡◌, ℕ, Bool, List, length};
ghost use Rattle.std.specs.Borrow.{ftrue};
ghost use Rattle.std.specs.Coded.{coded_bool, coded_list, coded_ℕ};
ghost use Rattle.like_board.specs.Marks.{marks_of};

use std::marker::Model;

#[derive(Drop)]
pub struct FirstPages {
    pub ghost counts: { List ℕ } by { coded_list coded_ℕ },
    pub ghost marks: { List Bool } by { coded_list coded_bool },
}

impl Model for FirstPages {
    ghost also_owns = { λ _. ftrue };
}

impl FirstPages {
    /// Those of pages with these counts and marks. A page beyond the marks has none.
    pub fn of(_counts: &[u64], _marks: &[bool]) -> FirstPages
        ensures counts { result.counts ≡ _counts.now }
        ensures marks { result.marks ≡ marks_of (length _counts.now) _marks.now }
    {
        FirstPages {}
    }
}
