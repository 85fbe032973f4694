//! The rule of a lock's table, and what each step tells who makes it.
ghost use Rattle.std.specs.Prelude.{◌≡◌, ◌==◌, [], MatchBool};
ghost use Rattle.told_lock.specs.declared.known.Known.TheVariants.{Back, Keeper};
ghost use Rattle.told_lock.specs.Known.{Takes, given_back, made_one, new_pass, noted, took_back};
ghost use Rattle.told_lock.specs.Rule.{IsLocked};

use crate::deeds::{Deeds, Done};
use crate::known::Known;
use atomic_table::{Join, Play, Split, TableRule};
use std::marker::PhantomData;
use std::snapshot::Snapshot;

/// The rule of a lock: the deeds of all passes have led from the first value to this one.
pub struct LockRule<D> {
    of: PhantomData<D>,
}

impl<T, C, D: Deeds<T, C>> TableRule<T, Known<T, C>, Snapshot<T>> for LockRule<D> {
    ghost holds = { λ key s. IsLocked D.does key.value s };

    ghost first = { λ key. Keeper key.value 0 0 [] [] };
}

/// A try to take the lock: its word is 0 if nobody has it.
pub(crate) struct Trying<D> {
    of: PhantomData<D>,
}

impl<T, C, D: Deeds<T, C>> Play<T, Known<T, C>> for Trying<D> {
    ghost then = { λ _ me found after. MatchBool (found == 0) (Takes D.does me.0 after) (after ≡ me) };
}

/// The lock is given back, after the deeds of `J`.
pub(crate) struct GivingBack<J> {
    of: PhantomData<J>,
}

impl<T, C, J: Done<C>> Play<T, Known<T, C>> for GivingBack<J> {
    ghost then = { λ _ me _ after. after ≡ (given_back me.0 J.done, []) };
}

/// The deeds of `J` are told, and the lock is kept.
pub(crate) struct Noting<J> {
    of: PhantomData<J>,
}

impl<T, C, J: Done<C>> Play<T, Known<T, C>> for Noting<J> {
    ghost then = { λ _ me _ after. after ≡ (noted me.0 me.1 J.done, me.1) };
}

/// The keeper makes a pass.
pub(crate) struct Making;

impl<T, C> Split<Known<T, C>> for Making {
    ghost left = { made_one };

    ghost right = { new_pass };
}

/// The keeper takes a pass back.
pub(crate) struct TakingBack;

impl<T, C> Join<Known<T, C>> for TakingBack {
    ghost both = { took_back };

    ghost spent = { Back };
}
