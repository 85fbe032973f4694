//! Rows of calls, rows of likes, and last likes of a seat.
ghost use Rattle.std.specs.Prelude.{◌≡◌, [], ◌∷◌, IsFalse, Ok};
ghost use Rattle.told_lock.specs.Deeds.{HasRun};
ghost use Rattle.like_shared.specs.declared.deed.SeatDeed.TheVariants as deed;
ghost use Rattle.like_shared.specs.Deeds.{SeatDoes};
ghost use Rattle.like_shared.specs.Rows.{AreAnswered, IsToldOf, deeds_of_call, row_deeds};

use crate::seat_row::SeatRow;
use like_board::SharedPost;
use like_live::{Answer, Call, LikePair, LiveSeat, RowAnswer};

type Seat = LiveSeat<SharedPost>;

/// Calls, which are made one by one, and whose answers are written (see `LiveSeat::run`).
#[derive(Clone, Copy)]
pub struct CallRow<'a> {
    pub calls: &'a [Call],
}

impl<'a> SeatRow for CallRow<'a> {
    type Answer = usize;

    type Written = Answer;

    ghost deeds = { λ row done answers. row_deeds deeds_of_call row.calls.now answers done };

    ghost writes = { λ row done old new. AreAnswered Ok (λ a. a) row.calls.now old new done };

    fn make(&self, seat: &mut Seat, answers: &mut [Answer]) -> usize {
        run_calls(seat, self.calls, answers)
    }
}

// Makes the calls of a row at a seat.
fn run_calls(seat: &mut Seat, rows: &[Call], answers: &mut [Answer]) -> usize
    ensures run { HasRun SeatDoes seat.old (row_deeds deeds_of_call rows.now answers.new result) seat.new }
    ensures answers { AreAnswered Ok (λ a. a) rows.now answers.old answers.new result }
{
    seat.run(rows, answers)
}

/// Likes, with one look at the phase word, up to the first that isn't counted (see `LiveSeat::like_row`).
#[derive(Clone, Copy)]
pub struct LikeRow<'a> {
    pub likes: &'a [LikePair],
}

impl<'a> SeatRow for LikeRow<'a> {
    type Answer = RowAnswer;

    type Written = u64;

    ghost deeds = { λ row told _. deed.LikeRow row.likes.now told ∷ [] };

    ghost writes = { λ row told old new. IsToldOf row.likes.now told };

    fn make(&self, seat: &mut Seat, _places: &mut [u64]) -> RowAnswer {
        count_likes(seat, self.likes)
    }
}

// Counts the likes of a row at a seat.
fn count_likes(seat: &mut Seat, likes: &[LikePair]) -> RowAnswer
    ensures run { HasRun SeatDoes seat.old (deed.LikeRow likes.now result ∷ []) seat.new }
    ensures told { IsToldOf likes.now result }
{
    seat.like_row(likes)
}

/// The last likes of a seat's users from rank `from` on are told, if it has so many users.
#[derive(Clone, Copy)]
pub struct LastsRow {
    pub from: u32,
}

impl SeatRow for LastsRow {
    type Answer = bool;

    type Written = u32;

    ghost deeds = { λ row is_done pages. deed.Lasts row.from pages is_done ∷ [] };

    ghost writes = { λ _ is_done old new. IsFalse is_done → new ≡ old };

    fn make(&self, seat: &mut Seat, pages: &mut [u32]) -> bool {
        tell_lasts(seat, self.from, pages)
    }
}

// Tells last likes of a seat, and leaves it as it is.
fn tell_lasts(seat: &mut Seat, from: u32, pages: &mut [u32]) -> bool
    ensures run { HasRun SeatDoes seat.old (deed.Lasts from pages.new result ∷ []) seat.new }
    ensures rest { IsFalse result → pages.new ≡ pages.old }
{
    if !seat.has_users(from, pages.len()) {
        return false;
    }
    seat.lasts(from, pages);
    true
}
