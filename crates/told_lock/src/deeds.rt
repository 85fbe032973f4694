ghost use Rattle.std.specs.Prelude.{List, []};

use std::marker::Brand;

/// What a deed does to a value: of the value before, the deed, and the value after.
pub trait Deeds<T, C> {
    ghost does: { T → C → T → Type 0 };
}

/// The deeds that a holder did, one after the other. A call with `Brand` picks them.
pub trait Done<C> {
    ghost done: { List C };
}

impl<C> Done<C> for Brand {
    ghost done = { [] };
}
