//! What each kind of step tells the seat that makes it, and how a worker's seat is made and given back.
ghost use Rattle.std.specs.Prelude.{◌≡◌, []};
ghost use Rattle.like_core.specs.declared.view.View.TheVariants.{Coord, Worker, Spent};
ghost use Rattle.like_core.specs.views.Views.{announced_coord, released_coord, published_coord, slots_put, made_coord, gathered_coord};
ghost use Rattle.like_core.specs.views.Layout.{slot_place, word_of};
ghost use Rattle.like_core.specs.views.Actions.{Acknowledges, Reports, Retires, Reads, Glances, Announces, Releases};
ghost use Rattle.like_core.specs.Post.{fresh, answered, retired, has_read, has_glanced};
ghost use Rattle.like_board.specs.Known.{coord_view_of, worker_view_of};
ghost use Rattle.like_board.specs.Plays.{TellsLook, TellsSurvey, TellsWorker, TellsReturn, TellsCoord, TellsAdd, TellsRead, TellsMask, TellsSlot, TellsSlots, TellsCount, TellsPutAt, OfWord};
ghost use Rattle.like_board.specs.Closed.{TellsLast};

use atomic_table::{Join, Play, Split};
use like_core::View;

/// A worker's look.
pub struct Looking;

impl Play<(), View> for Looking {
    ghost then = { λ _ me found after. TellsLook me.0 found after.0 × (after.1 ≡ []) };
}

/// An acknowledgement.
pub struct Acknowledging;

impl Play<(), View> for Acknowledging {
    ghost then = { λ _ me _ after. TellsWorker Acknowledges answered me.0 after.0 × (after.1 ≡ []) };
}

/// A report.
pub struct Reporting;

impl Play<(), View> for Reporting {
    ghost then = { λ _ me _ after. TellsWorker Reports answered me.0 after.0 × (after.1 ≡ []) };
}

/// A retirement.
pub struct Retiring;

impl Play<(), View> for Retiring {
    ghost then = { λ _ me _ after. TellsWorker Retires retired me.0 after.0 × (after.1 ≡ []) };
}

/// A try to come back.
pub struct Returning;

impl Play<(), View> for Returning {
    ghost then = { λ step me found after. TellsReturn step.first me.0 found after.0 × (after.1 ≡ []) };
}

/// An addition to the count of the page whose word it steps on.
pub struct Adding;

impl Play<(), View> for Adding {
    ghost then = { λ step me found after.
        OfWord word_of (λ p. TellsAdd p step.first) step.word me.0 found after.0 × (after.1 ≡ []) };
}

/// A read of such a count.
pub struct Reading;

impl Play<(), View> for Reading {
    ghost then = { λ step me found after.
        OfWord word_of (TellsRead Reads has_read) step.word me.0 found after.0 × (after.1 ≡ []) };
}

/// A glance at such a count.
pub struct Glancing;

impl Play<(), View> for Glancing {
    ghost then = { λ step me found after.
        OfWord word_of (TellsRead Glances has_glanced) step.word me.0 found after.0 × (after.1 ≡ []) };
}

/// A worker's read of the mask word.
pub struct ReadingMask;

impl Play<(), View> for ReadingMask {
    ghost then = { λ _ me found after. TellsMask me.0 found after.0 × (after.1 ≡ []) };
}

/// A worker's read of a slot's word.
pub struct ReadingSlot;

impl Play<(), View> for ReadingSlot {
    ghost then = { λ step me found after.
        OfWord slot_place TellsSlot step.word me.0 found after.0 × (after.1 ≡ []) };
}

/// A worker's read of the mask word where it tells which slots are in use.
pub struct ReadingSlots;

impl Play<(), View> for ReadingSlots {
    ghost then = { λ _ me found after. TellsSlots me.0 found after.0 × (after.1 ≡ []) };
}

/// The coordinator's look.
pub struct Surveying;

impl Play<(), View> for Surveying {
    ghost then = { λ _ me found after. TellsSurvey me.0 found after.0 × (after.1 ≡ []) };
}

/// An announcement.
pub struct Announcing;

impl Play<(), View> for Announcing {
    ghost then = { λ _ me _ after. TellsCoord Announces announced_coord me.0 after.0 × (after.1 ≡ []) };
}

/// The coordinator's read of the count of the page whose word it steps on.
pub struct Counting;

impl Play<(), View> for Counting {
    ghost then = { λ step me found after.
        OfWord word_of TellsCount step.word me.0 found after.0 × (after.1 ≡ []) };
}

/// A mask that is published.
pub struct Publishing;

impl Play<(), View> for Publishing {
    ghost then = { λ step me _ after.
        (after.0 ≡ Coord (published_coord (coord_view_of me.0) step.first)) × (after.1 ≡ []) };
}

/// A page that is put into a slot.
pub struct Putting;

impl Play<(), View> for Putting {
    ghost then = { λ step me _ after. TellsPutAt step.word step.first me.0 after.0 × (after.1 ≡ []) };
}

/// A word that is published, which tells which slots are in use.
pub struct PublishingSlots;

impl Play<(), View> for PublishingSlots {
    ghost then = { λ step me _ after. let c = coord_view_of me.0 in
        (after.0 ≡ Coord (published_coord c (slots_put c step.first))) × (after.1 ≡ []) };
}

/// A release.
pub struct Releasing;

impl Play<(), View> for Releasing {
    ghost then = { λ _ me _ after. TellsCoord Releases released_coord me.0 after.0 × (after.1 ≡ []) };
}

/// A read of a word by the coordinator's seat, where all workers' seats were given back to it.
pub struct Closing;

impl Play<(), View> for Closing {
    ghost then = { λ step me found after. TellsLast step.word me.0 found × (after ≡ me) };
}

/// The coordinator's seat makes the seat of the next worker.
pub struct MakesWorker;

impl Split<View> for MakesWorker {
    ghost left = { λ v. Coord (made_coord (coord_view_of v)) };

    ghost right = { λ v. Worker (fresh (coord_view_of v).opening (coord_view_of v).made) };
}

/// The coordinator's seat takes a worker's seat back.
pub struct Gathers;

impl Join<View> for Gathers {
    ghost both = { λ v w. Coord (gathered_coord (coord_view_of v) (worker_view_of w)) };

    ghost spent = { Spent };
}
