ghost use Rattle.like_board.specs.Rule.{IsShowing, first_view};

use crate::key::Key;
use atomic_table::TableRule;
use like_core::View;

/// The rule of a board: between any two atomic steps, its words and what all seats know show some state of the core
/// that can be reached.
pub struct BoardRule;

impl TableRule<(), View, Key> for BoardRule {
    ghost holds = { λ key s. IsShowing key s };

    ghost first = { first_view };
}
