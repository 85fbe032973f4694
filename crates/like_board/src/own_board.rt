ghost use Rattle.std.specs.Prelude.{◌≡◌, ◌≤◌, All, IfOk, length};
ghost use Rattle.own_table.specs.Table.{key_of, words_of};
ghost use Rattle.like_limits.specs.Limits.{max_count, max_pages, max_workers};
ghost use Rattle.like_core.specs.views.Layout.{word_of};
ghost use Rattle.like_board.specs.NewViews.{new_views};
ghost use Rattle.like_board.specs.Rule.{opening_of};

mod answer;
mod close;
mod coord_seat;
mod lent_post;
mod seats;
mod worker_seat;

pub use self::coord_seat::OwnCoordSeat;
pub use self::lent_post::LentPost;
pub use self::worker_seat::OwnWorkerSeat;
use crate::first_pages::FirstPages;
use crate::key::Key;
use crate::layout::first_words;
use crate::own_board::seats::own_seats;
use crate::rule::BoardRule;
use like_core::{Limits, View};
use like_limits::RUN_FACTOR;
use own_table::{FirstViews, OwnTable};
use std::alloc::{AllocError, Global};

/// All seats of a new board.
pub(crate) struct AllSeats;

impl FirstViews<View, Key> for AllSeats {
    ghost views = { λ key. new_views (opening_of key) };
}

/// A board that one thread owns: the same words under the same rule as those of a `Board`, but plain ones, on which its
/// seats step one after the other. So each step finds what the steps before it left.
#[derive(Drop)]
pub struct OwnBoard {
    pub(crate) table: OwnTable<View, Key, BoardRule>,
    ghost sized: { length (words_of table) ≡ word_of (length (opening_of (key_of table)).counts) },
}

impl OwnBoard {
    ghost use Rattle.like_core.specs.core.State.{opening};
    ghost use Rattle.like_core.specs.views.Shows.{IsOpening};
    ghost use Rattle.like_board.specs.Rule.{opened_coord};
    ghost use Rattle.like_board.specs.Own.{own_coord, own_opening, own_views, AreNewOwn};

    /// A board in phase 0, running, with these counts by page and the limits of a run; the coordinator's seat; and each
    /// worker's seat, in order. Pages that are marked in `split` are split in each odd phase.
    pub fn new(
        alloc: Global,
        workers: u32,
        counts: &[u64],
        split: &[bool],
    ) -> Result<(OwnBoard, OwnCoordSeat, Vec<OwnWorkerSeat>), AllocError>
        requires some_worker { 1 ≤ workers }
        requires few_workers { workers ≤ max_workers }
        requires same_pages { length split.now ≡ length counts.now }
        requires few_pages { length counts.now ≤ max_pages }
        requires counts { All (λ count. count ≤ max_count) counts.now }
        ensures opening { IfOk result (λ r. own_opening r.0 ≡ opening workers counts.now split.now) }
        ensures views { IfOk result (λ r. own_views r.0 ≡ new_views (own_opening r.0)) }
        ensures coord { IfOk result (λ r. own_coord r.1 ≡ opened_coord (own_opening r.0)) }
        ensures seats { IfOk result (λ r. length r.2.items ≡ workers) }
        ensures fresh { IfOk result (λ r. AreNewOwn r.0 r.2.items) }
    {
        let key = Key {
            workers,
            pages: FirstPages::of(counts, split),
            limits: Limits::of_run(),
            factor: RUN_FACTOR,
        };
        OwnBoard::by_key(alloc, key, counts)
    }

    // A board with the opening that a key tells.
    fn by_key(
        alloc: Global,
        key: Key,
        counts: &[u64],
    ) -> Result<(OwnBoard, OwnCoordSeat, Vec<OwnWorkerSeat>), AllocError>
        requires counts { key.pages.counts ≡ counts.now }
        requires opening { IsOpening (opening_of key) }
        ensures opening { IfOk result (λ r. own_opening r.0 ≡ opening_of key) }
        ensures views { IfOk result (λ r. own_views r.0 ≡ new_views (own_opening r.0)) }
        ensures coord { IfOk result (λ r. own_coord r.1 ≡ opened_coord (own_opening r.0)) }
        ensures seats { IfOk result (λ r. length r.2.items ≡ key.workers) }
        ensures fresh { IfOk result (λ r. AreNewOwn r.0 r.2.items) }
    {
        let first = key.limits.form.first(key.workers);
        let words = first_words(alloc, first, counts)?;
        let board = OwnBoard {
            table: OwnTable::open::<AllSeats>(&key, words),
        };
        let coord = OwnCoordSeat {
            access: board.table.seat(0),
            seen: first,
            workers: key.workers,
            phase: 0,
            limits: key.limits,
        };
        let seats = own_seats(alloc, &board, key.workers, key.limits.form)?;
        Ok((board, coord, seats))
    }
}
