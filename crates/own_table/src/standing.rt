//! What is so of a table between two steps. It exists only in proofs.
ghost use Rattle.std.specs.Prelude.{◌≡◌, ℕ, List, [], slice_index, slice_set};
ghost use Rattle.std.specs.Coded.{coded_list, coded_ℕ};
ghost use mathlib.Core.Option.{none, some};
ghost use lib.ListN.{get_elem?};
ghost use Rattle.atomic_table.specs.Table.{step};
ghost use Rattle.own_table.specs.Standing.{CanStep, stands, state};

use crate::own_seat::OwnSeat;
use atomic_table::{Play, TableRule};
use std::marker::{Model, PhantomData};

/// The views of all seats of a new table, by its key.
pub trait FirstViews<V, K> {
    ghost views: { K → List V };
}

/// The words of a table and the views of all its seats, which meet the rule.
#[derive(Drop)]
pub(crate) struct Standing<V, K, P: TableRule<(), V, K>> {
    marker: PhantomData<(V, K, P)>,
    pub ghost key: { K },
    pub ghost words: { List ℕ } by { coded_list coded_ℕ },
    pub ghost views: { List V } by { coded_list V.code },
}

impl<V, K, P: TableRule<(), V, K>> Model for Standing<V, K, P> {
    ghost also_owns = { λ s. stands (P.holds s.key (state s.words s.views)) };
}

impl<V, K, P: TableRule<(), V, K>> Standing<V, K, P> {
    // A new table with these words.
    pub(crate) fn open<F: FirstViews<V, K>>(_key: &K, _words: &[u64]) -> Standing<V, K, P>
        requires { P.holds _key.now (state _words.now (F.views _key.now)) }
        ensures { (result.key ≡ _key.now) × (result.words ≡ _words.now) × (result.views ≡ F.views _key.now) }
    {
        Standing {
            marker: PhantomData,
        }
    }

    // The seat at this place.
    pub(crate) fn seat(&self, _id: usize) -> OwnSeat<V>
        requires { (v : V) × (get_elem? self.now.views _id ≡ some v) }
        ensures { (result.id ≡ _id) × (get_elem? self.now.views _id ≡ some result.me.0) × (result.me.1 ≡ []) }
    {
        OwnSeat {
            marker: PhantomData,
        }
    }

    // One word is changed by this seat, which then knows what the play says.
    pub(crate) fn step<M: Play<(), V>>(
        &mut self,
        _seat: &OwnSeat<V>,
        _word: usize,
        _first: u64,
        _new: u64,
    ) -> OwnSeat<V>
        requires { CanStep (P.holds self.old.key) self.old.words self.old.views _seat.now.id _seat.now.me _word _new
            (M.then (step 0 _word _first 0 none) _seat.now.me) }
        ensures { (self.new.key ≡ self.old.key)
            × (self.new.words ≡ slice_set self.old.words _word _new)
            × (self.new.views ≡ slice_set self.old.views _seat.now.id result.me.0)
            × (result.id ≡ _seat.now.id)
            × P.holds self.old.key (state self.old.words self.old.views)
            × M.then (step 0 _word _first 0 none) _seat.now.me (slice_index self.old.words _word) result.me }
    {
        OwnSeat {
            marker: PhantomData,
        }
    }

    // What the rule says now.
    pub(crate) fn tell(&mut self)
        ensures same { self.new ≡ self.old }
        ensures holds { P.holds self.old.key (state self.old.words self.old.views) }
    {}
}
