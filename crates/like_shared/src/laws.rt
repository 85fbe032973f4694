//! The laws of a shared service. Each is the contract of a function that does nothing, or calls those that it follows
//! from.
ghost use Rattle.like_shared.specs.Batches.{BatchesAreCalls};
ghost use Rattle.like_shared.specs.Staying.{CountsStay, SameStays};
ghost use Rattle.like_shared.specs.Strict.{SharedServicesAreStrict};

use crate::deed::{SeatDeed, SeatDeeds};
use like_board::SharedPost;
use like_live::{LiveSeat, Row, histories_are_counted, services_are_strict};
use told_lock::logs_weigh_all;

/// One thread could have done all that all clients did at a service that is closed. Each client's calls at a seat stand
/// in the seat's history in their order. All deeds have one strict list. Each page's last count is its first count and
/// the likes of it that all clients were told.
pub fn shared_services_are_strict()
    ensures { SharedServicesAreStrict }
{
    services_are_strict();
    histories_are_counted();
    logs_weigh_all::<LiveSeat<SharedPost>, SeatDeed, SeatDeeds>();
}

/// A batch of rows is a list of calls, with the answers that its rows were told.
pub fn batches_are_calls<R: Row>()
    ensures { BatchesAreCalls R.asks R.tells }
{}

/// A driver and its seats stay the same along all calls, since each call leaves them so.
pub fn same_stays()
    ensures { SameStays }
{}

/// The counts that a snapshot wrote stay among those that the driver knows, and so do last counts.
pub fn counts_stay()
    ensures { CountsStay }
{}
