ghost use Rattle.std.specs.Prelude.{◌≡◌, ◌<◌, ◌≤◌, All, length, IfOk};
ghost use Rattle.like_limits.specs.Limits.{max_count, max_pages, max_workers};
ghost use Rattle.like_core.specs.OpeningLimits.{AreLimits};

use crate::coord_seat::CoordSeat;
use crate::first_pages::FirstPages;
use crate::key::Key;
use crate::layout::first_words;
use crate::new_seats::make_seats;
use crate::rule::BoardRule;
use crate::worker_seat::WorkerSeat;
use atomic_table::Table;
use like_core::{Limits, View};
use like_limits::RUN_FACTOR;
use std::alloc::{AllocError, Global};

/// The phase word, the mask word, one word per slot and one per page, which threads share.
#[derive(Drop)]
pub struct Board {
    pub(crate) table: Table<(), View, Key, BoardRule, Global>,
    ghost some_word: { 0 < table.shared.table_id.words },
    ghost no_slot: { table.shared.table_id.slots ≡ 0 },
}

impl Board {
    ghost use Rattle.like_core.specs.core.State.{opening, opening_by, opening_with};
    ghost use Rattle.like_core.specs.views.Shows.{IsOpening};
    ghost use Rattle.like_board.specs.Rule.{opened_coord, opening_of};
    ghost use Rattle.like_board.specs.Seats.{board_id, coord_board, coord_view, AreFresh};

    /// A board in phase 0, running, with these counts by page and the limits of a run; the coordinator's seat; and each
    /// worker's seat, in order. Pages that are marked in `split` are split in each odd phase. Others of the first 64
    /// are split in a phase that is released with a mask that has their bit.
    pub fn new(
        alloc: Global,
        workers: u32,
        counts: &[u64],
        split: &[bool],
    ) -> Result<(Board, CoordSeat, Vec<WorkerSeat>), AllocError>
        requires some_worker { 1 ≤ workers }
        requires few_workers { workers ≤ max_workers }
        requires same_pages { length split.now ≡ length counts.now }
        requires few_pages { length counts.now ≤ max_pages }
        requires counts { All (λ count. count ≤ max_count) counts.now }
        ensures coord_here { IfOk result (λ r. coord_board r.1 ≡ board_id r.0) }
        ensures coord { IfOk result (λ r.
            coord_view r.1 ≡ opened_coord (opening workers counts.now split.now)) }
        ensures seats { IfOk result (λ r. length r.2.items ≡ workers) }
        ensures views { IfOk result (λ r.
            AreFresh (board_id r.0) (opening workers counts.now split.now) r.2.items) }
    {
        Board::with_limits(alloc, workers, counts, split, Limits::of_run())
    }

    /// A new board within these limits, with the coordinator's seat and each worker's, in order.
    pub fn with_limits(
        alloc: Global,
        workers: u32,
        counts: &[u64],
        split: &[bool],
        limits: Limits,
    ) -> Result<(Board, CoordSeat, Vec<WorkerSeat>), AllocError>
        requires some_worker { 1 ≤ workers }
        requires few_workers { workers ≤ limits.seats }
        requires same_pages { length split.now ≡ length counts.now }
        requires few_pages { length counts.now ≤ limits.pages }
        requires counts { All (λ count. count ≤ max_count) counts.now }
        requires limits { AreLimits limits }
        ensures coord_here { IfOk result (λ r. coord_board r.1 ≡ board_id r.0) }
        ensures coord { IfOk result (λ r.
            coord_view r.1 ≡ opened_coord (opening_with limits workers counts.now split.now)) }
        ensures seats { IfOk result (λ r. length r.2.items ≡ workers) }
        ensures views { IfOk result (λ r.
            AreFresh (board_id r.0) (opening_with limits workers counts.now split.now) r.2.items) }
    {
        let key = Key {
            workers,
            pages: FirstPages::of(counts, split),
            limits,
            factor: RUN_FACTOR,
        };
        Board::by_key(alloc, key, counts)
    }

    /// A board of a service, with these counts by page and no page marked: the pages that are split in a phase are
    /// those in its slots. The factor gives each page its bucket.
    pub fn for_service(
        alloc: Global,
        workers: u32,
        counts: &[u64],
        factor: u32,
        limits: Limits,
    ) -> Result<(Board, CoordSeat, Vec<WorkerSeat>), AllocError>
        requires some_worker { 1 ≤ workers }
        requires few_workers { workers ≤ limits.seats }
        requires few_pages { length counts.now ≤ limits.pages }
        requires counts { All (λ count. count ≤ max_count) counts.now }
        requires limits { AreLimits limits }
        ensures coord_here { IfOk result (λ r. coord_board r.1 ≡ board_id r.0) }
        ensures coord { IfOk result (λ r.
            coord_view r.1 ≡ opened_coord (opening_by factor limits workers counts.now)) }
        ensures seats { IfOk result (λ r. length r.2.items ≡ workers) }
        ensures views { IfOk result (λ r.
            AreFresh (board_id r.0) (opening_by factor limits workers counts.now) r.2.items) }
    {
        let key = Key {
            workers,
            pages: FirstPages::of(counts, &[]),
            limits,
            factor,
        };
        Board::by_key(alloc, key, counts)
    }

    /// A board with the opening that a key tells.
    fn by_key(
        alloc: Global,
        key: Key,
        counts: &[u64],
    ) -> Result<(Board, CoordSeat, Vec<WorkerSeat>), AllocError>
        requires counts { key.pages.counts ≡ counts.now }
        requires opening { IsOpening (opening_of key) }
        ensures coord_here { IfOk result (λ r. coord_board r.1 ≡ board_id r.0) }
        ensures coord { IfOk result (λ r. coord_view r.1 ≡ opened_coord (opening_of key)) }
        ensures seats { IfOk result (λ r. length r.2.items ≡ key.workers) }
        ensures views { IfOk result (λ r. AreFresh (board_id r.0) (opening_of key) r.2.items) }
    {
        let first = key.limits.form.first(key.workers);
        let words = first_words(alloc, first, counts)?;
        let (table, mut access) = Table::of_words(alloc, words.as_slice(), &key)?;
        let board = Board { table };
        let seats = make_seats(alloc, &board, &mut access, key.workers, key.limits.form)?;
        let coord = CoordSeat {
            access,
            seen: first,
            workers: key.workers,
            phase: 0,
            limits: key.limits,
        };
        Ok((board, coord, seats))
    }
}
