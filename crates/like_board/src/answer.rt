//! How an answer goes into the phase word.
ghost use Rattle.std.specs.Prelude.{◌≡◌};
ghost use Rattle.atomic_table.specs.Table.{Allows, step};
ghost use mathlib.Core.Option.{none};
ghost use Rattle.like_core.specs.word.Forms.{form_of};
ghost use Rattle.like_core.specs.views.Layout.{phase_place};
ghost use Rattle.like_board.specs.Rule.{IsShowing};
ghost use Rattle.like_board.specs.Seats.{board_id};

use crate::board::Board;
use crate::layout::PHASE_WORD;
use atomic_table::{Play, Seat};
use like_core::{Form, View};

/// Puts an answer or a retirement into the phase word, in one step of the word's form. Gives the word found.
pub(crate) fn put_answer<P: Play<(), View>>(
    access: &mut Seat<(), View>,
    board: &Board,
    form: Form,
    answer: u64,
) -> u64
    requires here { access.old.table_id ≡ board_id board.now }
    requires allowed { let table = board.now.table.shared in
        Allows (IsShowing table.key) table.table_id.slots access.old.id access.old.me phase_place
        (λ word. (form_of form).put word answer)
        (P.then (step table.table_id.slots phase_place answer 0 none) access.old.me) }
    ensures board { access.new.table_id ≡ access.old.table_id }
    ensures told { let table = board.now.table.shared in
        P.then (step table.table_id.slots phase_place answer 0 none) access.old.me result access.new.me }
{
    let shared = &board.table.shared;
    match form {
        Form::Bits => shared.fetch_or::<P>(access, PHASE_WORD, answer),
        Form::Counts => shared.fetch_add::<P>(access, PHASE_WORD, answer),
    }
}
