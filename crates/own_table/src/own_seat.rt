ghost use Rattle.std.specs.Prelude.{ℕ, ⊤};
ghost use Rattle.std.specs.Borrow.{ftrue};
ghost use Rattle.atomic_table.specs.Table.{Me};

use std::marker::{Model, PhantomData};

/// A seat of a table that one thread owns: its place among the views, and what it knows. It has no bytes.
#[derive(Drop)]
pub struct OwnSeat<V> {
    pub(crate) marker: PhantomData<V>,
    pub ghost id: { ℕ },
    pub ghost me: { Me ⊤ V },
}

impl<V> Model for OwnSeat<V> {
    ghost also_owns = { λ _. ftrue };
}
