//! A row of requests, which a client makes as one batch.
ghost use Rattle.told_lock.specs.Deeds.{HasRun};
ghost use Rattle.like_shared.specs.Deeds.{SeatDoes};
ghost use Rattle.like_shared.specs.Rows.{AreAnswered};
ghost use Rattle.like_c.specs.Rows.{call_of, row_of};
ghost use Rattle.like_c.specs.Told.{deeds_of_requests};

use crate::rows::{AnswerRow, RequestRow};
use like_board::SharedPost;
use like_live::LiveSeat;
use like_shared::SeatRow;

type Seat = LiveSeat<SharedPost>;

/// Requests, which are made one by one, and whose answers are written (see `LiveSeat::run`).
#[derive(Clone, Copy)]
pub struct RequestRun<'a> {
    pub requests: &'a [RequestRow],
}

impl<'a> SeatRow for RequestRun<'a> {
    type Answer = usize;

    type Written = AnswerRow;

    ghost deeds = { λ run done rows. deeds_of_requests run.requests.now rows done };

    ghost writes = { λ run done old new. AreAnswered call_of row_of run.requests.now old new done };

    fn make(&self, seat: &mut Seat, answers: &mut [AnswerRow]) -> usize {
        run_requests(seat, self.requests, answers)
    }
}

// Makes requests at a seat.
fn run_requests(seat: &mut Seat, requests: &[RequestRow], answers: &mut [AnswerRow]) -> usize
    ensures run { HasRun SeatDoes seat.old (deeds_of_requests requests.now answers.new result) seat.new }
    ensures answers { AreAnswered call_of row_of requests.now answers.old answers.new result }
{
    seat.run(requests, answers)
}
