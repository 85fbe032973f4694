//! How an answer goes into the phase word of a board that one thread owns.
ghost use Rattle.std.specs.Prelude.{◌≡◌, slice_set};
ghost use mathlib.Core.Option.{none, some};
ghost use lib.ListN.{get_elem?};
ghost use Rattle.atomic_table.specs.Table.{Allows, step};
ghost use Rattle.own_table.specs.Table.{key_of, views_of};
ghost use Rattle.like_core.specs.word.Forms.{form_of};
ghost use Rattle.like_core.specs.views.Layout.{phase_place};
ghost use Rattle.like_board.specs.Rule.{IsShowing};

use crate::layout::PHASE_WORD;
use crate::own_board::OwnBoard;
use atomic_table::Play;
use like_core::{Form, View};
use own_table::OwnSeat;

/// Puts an answer or a retirement into the phase word, by the word's form. Gives the word found.
pub(crate) fn put_own_answer<P: Play<(), View>>(
    access: &mut OwnSeat<View>,
    board: &mut OwnBoard,
    form: Form,
    answer: u64,
) -> u64
    requires here { get_elem? (views_of board.old.table) access.old.id ≡ some access.old.me.0 }
    requires allowed { Allows (IsShowing (key_of board.old.table)) 0 access.old.id access.old.me phase_place
        (λ word. (form_of form).put word answer) (P.then (step 0 phase_place answer 0 none) access.old.me) }
    ensures id { access.new.id ≡ access.old.id }
    ensures key { key_of board.new.table ≡ key_of board.old.table }
    ensures views { views_of board.new.table
        ≡ slice_set (views_of board.old.table) access.old.id access.new.me.0 }
    ensures told { P.then (step 0 phase_place answer 0 none) access.old.me result access.new.me }
{
    match form {
        Form::Bits => board.table.fetch_or::<P>(access, PHASE_WORD, answer),
        Form::Counts => board.table.fetch_add::<P>(access, PHASE_WORD, answer),
    }
}
