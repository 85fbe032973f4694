//! The statuses of likes.h, and which answer has which.
ghost use Rattle.std.specs.Prelude.{◌≡◌};
ghost use Rattle.like_c.specs.Status.{HasStatus, done_status, driver_status, last_status, lasts_status, like_status, open_status, snapshot_status, turn_status, verdict_status};

use like_live::{DriverAnswer, LikeAnswer, OpenError, TurnAnswer};
use like_requests::Verdict;

pub(crate) const OK: u32 = 0;

pub(crate) const LIKED: u32 = 1;

pub(crate) const SEEN: u32 = 2;

pub(crate) const WAITS: u32 = 3;

pub(crate) const RUNS: u32 = 4;

pub(crate) const BETWEEN: u32 = 5;

pub(crate) const NO_ROOM: u32 = 6;

pub(crate) const LIKE_LIMIT: u32 = 7;

pub(crate) const GONE: u32 = 8;

pub(crate) const GOES_ON: u32 = 9;

pub(crate) const ANNOUNCED: u32 = 10;

pub(crate) const NOT_ALL_IN: u32 = 11;

pub(crate) const RELEASED: u32 = 12;

pub(crate) const ENDED: u32 = 13;

pub(crate) const COUNTED: u32 = 14;

pub(crate) const NO_MOMENT: u32 = 15;

pub(crate) const NOT_ENDED: u32 = 16;

pub(crate) const ALL_TAKEN: u32 = 17;

pub(crate) const GLIMPSED: u32 = 18;

pub(crate) const BUSY: u32 = 19;

pub(crate) const NO_FOUND: u32 = 20;

pub(crate) const EMPTY: u32 = 100;

pub(crate) const IN_USE: u32 = 101;

pub(crate) const NO_MEMORY: u32 = 102;

pub(crate) const UNKNOWN_USER: u32 = 103;

pub(crate) const OTHER_SEAT: u32 = 104;

pub(crate) const UNKNOWN_PAGE: u32 = 105;

pub(crate) const UNKNOWN_OP: u32 = 106;

pub(crate) const UNKNOWN_END: u32 = 107;

pub(crate) const WRONG_RANGE: u32 = 108;

pub(crate) const WRONG_RESERVED: u32 = 109;

pub(crate) const WRONG_PAGES: u32 = 110;

pub(crate) const WRONG_MARKS: u32 = 111;

pub(crate) const WRONG_COUNT: u32 = 112;

pub(crate) const WRONG_SEATS: u32 = 113;

pub(crate) const WRONG_USERS: u32 = 114;

pub(crate) const WRONG_ROOM: u32 = 115;

pub(crate) const WRONG_HOT: u32 = 116;

pub(crate) const WRONG_LASTS: u32 = 117;

pub(crate) const OPEN_CLIENT: u32 = 119;

pub(crate) const UNKNOWN_SEAT: u32 = 1003;

#[inline(always)]
pub(crate) fn of_verdict(verdict: Verdict) -> u32
    ensures { result ≡ verdict_status verdict }
{
    match verdict {
        Verdict::Accepted => OK,
        Verdict::UnknownUser => UNKNOWN_USER,
        Verdict::OtherHome => OTHER_SEAT,
        Verdict::UnknownPage => UNKNOWN_PAGE,
    }
}

#[inline(always)]
pub(crate) fn of_like(answer: LikeAnswer) -> u32
    ensures { result ≡ like_status answer }
{
    match answer {
        LikeAnswer::Liked => LIKED,
        LikeAnswer::Between => BETWEEN,
        LikeAnswer::Refused(verdict) => of_verdict(verdict),
        LikeAnswer::Full => LIKE_LIMIT,
        LikeAnswer::Gone => GONE,
    }
}

pub(crate) fn of_turn(answer: TurnAnswer) -> u32
    ensures { result ≡ turn_status answer }
{
    match answer {
        TurnAnswer::Runs => RUNS,
        TurnAnswer::Between => BETWEEN,
        TurnAnswer::Gone => GONE,
    }
}

pub(crate) fn of_driver(answer: DriverAnswer) -> u32
    ensures { result ≡ driver_status answer }
{
    match answer {
        DriverAnswer::Announced => ANNOUNCED,
        DriverAnswer::Waiting => NOT_ALL_IN,
        DriverAnswer::Released => RELEASED,
        DriverAnswer::Running => GOES_ON,
        DriverAnswer::Ended => ENDED,
    }
}

pub(crate) fn of_open(error: OpenError) -> u32
    ensures { result ≡ open_status error }
{
    match error {
        OpenError::Pages => WRONG_PAGES,
        OpenError::Marks => WRONG_MARKS,
        OpenError::Counts => WRONG_COUNT,
        OpenError::Seats => WRONG_SEATS,
        OpenError::Users => WRONG_USERS,
        OpenError::Lasts => WRONG_LASTS,
        OpenError::Room => WRONG_ROOM,
        OpenError::Hot => WRONG_HOT,
        OpenError::Memory => NO_MEMORY,
    }
}

#[inline(always)]
pub(crate) fn of_told_like(told: Result<LikeAnswer, u32>) -> u32
    ensures { HasStatus like_status result told }
{
    match told {
        Ok(answer) => of_like(answer),
        Err(refused) => refused,
    }
}

pub(crate) fn of_told_turn(told: Result<TurnAnswer, u32>) -> u32
    ensures { HasStatus turn_status result told }
{
    match told {
        Ok(answer) => of_turn(answer),
        Err(refused) => refused,
    }
}

pub(crate) fn of_told_driver(told: Result<DriverAnswer, u32>) -> u32
    ensures { HasStatus driver_status result told }
{
    match told {
        Ok(answer) => of_driver(answer),
        Err(refused) => refused,
    }
}

pub(crate) fn of_told_snapshot(told: Result<Option<u64>, u32>) -> u32
    ensures { HasStatus snapshot_status result told }
{
    match told {
        Ok(Some(_)) => COUNTED,
        Ok(None) => NO_MOMENT,
        Err(refused) => refused,
    }
}

pub(crate) fn of_told_last(told: Result<bool, u32>) -> u32
    ensures { HasStatus last_status result told }
{
    match told {
        Ok(true) => COUNTED,
        Ok(false) => NOT_ENDED,
        Err(refused) => refused,
    }
}

pub(crate) fn of_told_lasts(told: Result<bool, u32>) -> u32
    ensures { HasStatus lasts_status result told }
{
    match told {
        Ok(true) => OK,
        Ok(false) => WRONG_RANGE,
        Err(refused) => refused,
    }
}

/// What is done, or the status that came in its place.
pub(crate) fn of_done(told: Result<(), u32>) -> u32
    ensures { HasStatus done_status result told }
{
    match told {
        Ok(()) => OK,
        Err(refused) => refused,
    }
}
