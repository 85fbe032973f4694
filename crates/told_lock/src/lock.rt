ghost use Rattle.std.specs.Prelude.{List, ◌≡◌, ◌+◌, ◌-◌, ◌<◌, ◌^◌, ◌++◌, [], ◌∷◌, IfOk, MatchBool};
ghost use Rattle.told_lock.specs.Deeds.{Continues, HasRun, Leads, deeds_in, named};

use crate::deeds::{Deeds, Done};
use crate::keeper::Keeper;
use crate::known::Known;
use crate::pass::Pass;
use crate::rule::{GivingBack, LockRule, Making, Noting, TakingBack, Trying};
use atomic_table::Table;
use std::alloc::{AllocError, Global};
use std::marker::Brand;
use std::snapshot::Snapshot;

// The lock's word, with 128 bytes on both sides: whatever pair of cache lines it lies in has nothing else in it.
const LOCK_WORD: usize = 16;

const WORDS: [u64; 33] = [0; 33];

/// A value that one holder at a time may change. The value lies in place, and isn't moved.
#[derive(Drop)]
pub struct Lock<T, C, D: Deeds<T, C>> {
    pub(crate) table: Table<T, Known<T, C>, Snapshot<T>, LockRule<D>, Global>,
    ghost words: { table.shared.table_id.words ≡ 33 },
    ghost slots: { table.shared.table_id.slots ≡ 1 },
}

impl<T, C, D: Deeds<T, C>> Lock<T, C, D> {
    ghost use Rattle.told_lock.specs.Rights.{IsHolding, IsIdle, IsKeeper, first_of, log_of, made_of, name_of, seen_of, seens_of, told_of};

    /// A lock of this value, with the keeper of its passes.
    pub fn new(alloc: Global, value: T) -> Result<(Lock<T, C, D>, Keeper<T, C>), AllocError>
    where
        T: Drop,
        ensures first { IfOk result (λ r. first_of r.0 ≡ value) }
        ensures keeper { IfOk result (λ r. IsKeeper r.0 r.1) }
        ensures made { IfOk result (λ r. made_of r.1 ≡ 0) }
        ensures out { IfOk result (λ r. r.1.out ≡ 0) }
        ensures told { IfOk result (λ r. told_of r.1 ≡ []) }
        ensures seens { IfOk result (λ r. seens_of r.1 ≡ []) }
    {
        let first = Snapshot::of(&value);
        let mut slots = Vec::with_capacity(alloc, 1)?;
        slots.push_reserved(value);
        match Table::new(alloc, &WORDS, slots, &first) {
            Ok((table, seat)) => Ok((Lock { table }, Keeper { seat, out: 0 })),
            Err(_) => Err(AllocError),
        }
    }

    /// Another pass. Its name is how many were made.
    pub fn new_pass(&self, keeper: &mut Keeper<T, C>) -> Pass<T, C>
        requires keeper { IsKeeper self.now keeper.old }
        requires room { keeper.old.out + 1 < 2 ^ 64 }
        ensures keeper { IsKeeper self.now keeper.new }
        ensures made { made_of keeper.new ≡ made_of keeper.old + 1 }
        ensures out { keeper.new.out ≡ keeper.old.out + 1 }
        ensures told { told_of keeper.new ≡ told_of keeper.old }
        ensures seens { seens_of keeper.new ≡ seens_of keeper.old }
        ensures idle { IsIdle self.now result }
        ensures name { name_of result ≡ made_of keeper.new }
        ensures seen { seen_of result ≡ [] }
        ensures log { log_of result ≡ [] }
    {
        let seat = self.table.shared.split_seat::<Making>(&mut keeper.seat);
        keeper.out += 1;
        Pass { seat }
    }

    /// Takes the lock if nobody has it. Otherwise nothing is done.
    #[inline(always)]
    pub fn try_take(&self, pass: &mut Pass<T, C>) -> bool
        requires { IsIdle self.now pass.old }
        ensures name { name_of pass.new ≡ name_of pass.old }
        ensures log { log_of pass.new ≡ log_of pass.old }
        ensures seen { Continues (seen_of pass.old) (seen_of pass.new) }
        ensures taken { MatchBool result ((x : T) × IsHolding self.now pass.new x x
            × HasRun D.does (first_of self.now) (deeds_in (seen_of pass.new)) x)
            (IsIdle self.now pass.new) }
    {
        self.table
            .shared
            .compare_exchange::<Trying<D>>(&mut pass.seat, LOCK_WORD, 0, 1)
            == 0
    }

    /// Gives the lock back, after the deeds of `J`.
    #[inline(always)]
    pub fn give_back_after<J: Done<C>>(&self, pass: &mut Pass<T, C>)
        requires { (x : T) × (y : T) × IsHolding self.now pass.old x y × HasRun D.does x J.done y }
        ensures idle { IsIdle self.now pass.new }
        ensures name { name_of pass.new ≡ name_of pass.old }
        ensures seen { seen_of pass.new ≡ seen_of pass.old ++ named (name_of pass.old) J.done }
        ensures log { log_of pass.new ≡ log_of pass.old ++ J.done }
    {
        self.table
            .shared
            .store::<GivingBack<J>>(&mut pass.seat, LOCK_WORD, 0);
    }

    /// Gives the lock back, after one deed.
    #[inline(always)]
    pub fn give_back(&self, pass: &mut Pass<T, C>, deed: &C)
        requires { (x : T) × (y : T) × IsHolding self.now pass.old x y × D.does x deed.now y }
        ensures idle { IsIdle self.now pass.new }
        ensures name { name_of pass.new ≡ name_of pass.old }
        ensures seen { seen_of pass.new ≡ seen_of pass.old ++ named (name_of pass.old) (deed.now ∷ []) }
        ensures log { log_of pass.new ≡ log_of pass.old ++ deed.now ∷ [] }
    {
        self.give_back_as::<Brand>(pass, deed);
    }

    // Gives the lock back: the proof of a call picks the deed as that of `J`.
    #[inline(always)]
    fn give_back_as<J: Done<C>>(&self, pass: &mut Pass<T, C>, _deed: &C)
        requires deed { J.done ≡ _deed.now ∷ [] }
        requires holding { (x : T) × (y : T) × IsHolding self.now pass.old x y × D.does x _deed.now y }
        ensures idle { IsIdle self.now pass.new }
        ensures name { name_of pass.new ≡ name_of pass.old }
        ensures seen { seen_of pass.new ≡ seen_of pass.old ++ named (name_of pass.old) (_deed.now ∷ []) }
        ensures log { log_of pass.new ≡ log_of pass.old ++ _deed.now ∷ [] }
    {
        self.give_back_after::<J>(pass);
    }

    /// Tells the deeds of `J`, and keeps the lock.
    #[inline(always)]
    pub fn note_after<J: Done<C>>(&self, pass: &mut Pass<T, C>)
        requires { (x : T) × (y : T) × IsHolding self.now pass.old x y × HasRun D.does x J.done y }
        ensures holding { (x : T) × (y : T) × IsHolding self.now pass.old x y × IsHolding self.now pass.new y y }
        ensures name { name_of pass.new ≡ name_of pass.old }
        ensures seen { seen_of pass.new ≡ seen_of pass.old ++ named (name_of pass.old) J.done }
        ensures log { log_of pass.new ≡ log_of pass.old ++ J.done }
    {
        self.table
            .shared
            .store::<Noting<J>>(&mut pass.seat, LOCK_WORD, 1);
    }

    /// Tells one deed, and keeps the lock.
    #[inline(always)]
    pub fn note(&self, pass: &mut Pass<T, C>, deed: &C)
        requires { (x : T) × (y : T) × IsHolding self.now pass.old x y × D.does x deed.now y }
        ensures holding { (x : T) × (y : T) × IsHolding self.now pass.old x y × IsHolding self.now pass.new y y }
        ensures name { name_of pass.new ≡ name_of pass.old }
        ensures seen { seen_of pass.new ≡ seen_of pass.old ++ named (name_of pass.old) (deed.now ∷ []) }
        ensures log { log_of pass.new ≡ log_of pass.old ++ deed.now ∷ [] }
    {
        self.note_as::<Brand>(pass, deed);
    }

    // Tells one deed: the proof of a call picks it as that of `J`.
    #[inline(always)]
    fn note_as<J: Done<C>>(&self, pass: &mut Pass<T, C>, _deed: &C)
        requires deed { J.done ≡ _deed.now ∷ [] }
        requires holding { (x : T) × (y : T) × IsHolding self.now pass.old x y × D.does x _deed.now y }
        ensures holding { (x : T) × (y : T) × IsHolding self.now pass.old x y × IsHolding self.now pass.new y y }
        ensures name { name_of pass.new ≡ name_of pass.old }
        ensures seen { seen_of pass.new ≡ seen_of pass.old ++ named (name_of pass.old) (_deed.now ∷ []) }
        ensures log { log_of pass.new ≡ log_of pass.old ++ _deed.now ∷ [] }
    {
        self.note_after::<J>(pass);
    }

    /// Takes a pass back, any of those that are out.
    pub fn take_back(&self, keeper: &mut Keeper<T, C>, pass: Pass<T, C>)
        requires keeper { IsKeeper self.now keeper.old }
        requires idle { IsIdle self.now pass }
        ensures keeper { IsKeeper self.now keeper.new }
        ensures made { made_of keeper.new ≡ made_of keeper.old }
        ensures out { keeper.new.out ≡ keeper.old.out - 1 }
        ensures told { told_of keeper.new ≡ told_of keeper.old ++ named (name_of pass) (log_of pass) }
        ensures seens { seens_of keeper.new ≡ seens_of keeper.old ++ seen_of pass ∷ [] }
    {
        let Pass { seat } = pass;
        self.table
            .shared
            .join_seat::<TakingBack>(&mut keeper.seat, seat);
        keeper.out = keeper.out.saturating_sub(1);
    }

    /// The value, once no pass is out.
    pub fn close(self, keeper: Keeper<T, C>) -> T
        requires keeper { IsKeeper self keeper }
        requires back { keeper.out ≡ 0 }
        ensures { Leads D.does (first_of self) (told_of keeper) (seens_of keeper) result }
    {
        let Lock { table } = self;
        let Keeper { seat, out: _ } = keeper;
        let mut closed = table.close_with(seat);
        let value = closed.take(0);
        closed.free();
        value
    }

    /// The value, if passes are lost. `Err`: as a holder left it that never gave the lock back.
    pub fn into_inner(self) -> Result<T, T>
        ensures { IfOk result (λ x. (done : List C) × HasRun D.does (first_of self) done x) }
    {
        let Lock { table } = self;
        let mut closed = table.close();
        let is_free = closed.word(LOCK_WORD) == 0;
        let value = closed.take(0);
        closed.free();
        if is_free { Ok(value) } else { Err(value) }
    }
}
