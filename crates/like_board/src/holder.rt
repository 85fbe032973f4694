ghost use Rattle.std.specs.Prelude.{◌≡◌};
ghost use Rattle.std.specs.Arc.{arc_value};
ghost use Rattle.atomic_table.specs.Seated.{TableId};

use crate::board::Board;
use std::sync::Arc;

/// What lends a post its board.
pub trait HoldsBoard {
    /// Which board it is.
    ghost held: { Self → TableId };

    fn board(&self) -> &Board
        ensures { result.now.table.shared.table_id ≡ held self.now };
}

impl HoldsBoard for &Board {
    ghost held = { λ board. board.now.table.shared.table_id };

    #[inline(always)]
    fn board(&self) -> &Board {
        *self
    }
}

impl HoldsBoard for Arc<Board> {
    ghost held = { λ board. (arc_value board).table.shared.table_id };

    #[inline(always)]
    fn board(&self) -> &Board {
        self
    }
}
