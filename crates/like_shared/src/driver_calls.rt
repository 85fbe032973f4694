//! The calls of a driver.
ghost use Rattle.std.specs.Prelude.{◌≡◌, ◌+◌, IfNone, IsFalse, drop};
ghost use Rattle.like_shared.specs.declared.deed.DriverDeed.TheVariants.{LastCounts, Propose, Snapshot, SplitPages, Turn};

use crate::driver::DriverCall;
use like_choice::Guided;
use like_live::{Driver, DriverAnswer, End};

/// A turn, which may end the phase as `end` says.
#[derive(Clone, Copy)]
pub struct DriverTurnCall {
    pub end: End,
}

impl DriverCall for DriverTurnCall {
    type Answer = DriverAnswer;

    type Written = u64;

    ghost deed = { λ call answer _. Turn call.end answer };

    ghost writes = { λ _ _ old new. new ≡ old };

    ghost reach = { λ _ _. 0 };

    fn make(&self, driver: &mut Driver<Guided>, _places: &mut [u64]) -> DriverAnswer {
        driver.turn(self.end)
    }
}

/// Pages are proposed for slots.
#[derive(Clone, Copy)]
pub struct ProposeCall<'a> {
    pub pages: &'a [u32],
}

impl<'a> DriverCall for ProposeCall<'a> {
    type Answer = ();

    type Written = u64;

    ghost deed = { λ call _ _. Propose call.pages.now };

    ghost writes = { λ _ _ old new. new ≡ old };

    ghost reach = { λ _ _. 0 };

    fn make(&self, driver: &mut Driver<Guided>, _places: &mut [u64]) {
        driver.propose(self.pages);
    }
}

/// A snapshot of the pages from `from` on.
#[derive(Clone, Copy)]
pub struct SnapshotCall {
    pub from: u32,
}

impl DriverCall for SnapshotCall {
    type Answer = Option<u64>;

    type Written = u64;

    ghost deed = { λ call phase counts. Snapshot call.from counts phase };

    ghost writes = { λ _ phase old new. IfNone phase (new ≡ old) };

    ghost reach = { λ call many. call.from + many };

    fn make(&self, driver: &mut Driver<Guided>, counts: &mut [u64]) -> Option<u64> {
        driver.snapshot(self.from, counts)
    }
}

/// The pages that are split are told.
#[derive(Clone, Copy)]
pub struct SplitPagesCall;

impl DriverCall for SplitPagesCall {
    type Answer = usize;

    type Written = u32;

    ghost deed = { λ _ many pages. SplitPages pages many };

    ghost writes = { λ _ many old new. drop many new ≡ drop many old };

    ghost reach = { λ _ _. 0 };

    fn make(&self, driver: &mut Driver<Guided>, pages: &mut [u32]) -> usize {
        driver.split_pages(pages)
    }
}

/// Last counts are asked for, of the pages from `from` on.
#[derive(Clone, Copy)]
pub struct LastCountsCall {
    pub from: u32,
}

impl DriverCall for LastCountsCall {
    type Answer = bool;

    type Written = u64;

    ghost deed = { λ call is_done counts. LastCounts call.from counts is_done };

    ghost writes = { λ _ is_done old new. IsFalse is_done → new ≡ old };

    ghost reach = { λ call many. call.from + many };

    fn make(&self, driver: &mut Driver<Guided>, counts: &mut [u64]) -> bool {
        driver.last_counts(self.from, counts)
    }
}
