//! The calls of a seat.
ghost use Rattle.like_shared.specs.declared.deed.SeatDeed.TheVariants.{ComeBack, Glance, Last, Like, Look, Retire, TakeFound, Turn};

use crate::seat_call::SeatCall;
use like_board::SharedPost;
use like_live::{Found, GlanceAnswer, LikeAnswer, LiveSeat, LookAnswer, TurnAnswer};
use like_requests::Verdict;

type Seat = LiveSeat<SharedPost>;

/// Phase work alone.
#[derive(Clone, Copy)]
pub struct TurnCall;

impl SeatCall for TurnCall {
    type Answer = TurnAnswer;

    ghost deed = { λ _ answer. Turn answer };

    #[inline(always)]
    fn make(&self, seat: &mut Seat) -> TurnAnswer {
        seat.turn()
    }
}

/// A user's like of a page.
#[derive(Clone, Copy)]
pub struct LikeCall {
    pub user: u32,
    pub page: u32,
}

impl SeatCall for LikeCall {
    type Answer = LikeAnswer;

    ghost deed = { λ call answer. Like call.user call.page answer };

    #[inline(always)]
    fn make(&self, seat: &mut Seat) -> LikeAnswer {
        seat.like(self.user, self.page)
    }
}

/// A user's look at a page, with a tag of the host's.
#[derive(Clone, Copy)]
pub struct LookCall {
    pub user: u32,
    pub page: u32,
    pub tag: u64,
}

impl SeatCall for LookCall {
    type Answer = LookAnswer;

    ghost deed = { λ call answer. Look call.user call.page call.tag answer };

    #[inline(always)]
    fn make(&self, seat: &mut Seat) -> LookAnswer {
        seat.look(self.user, self.page, self.tag)
    }
}

/// A user's glance at a page.
#[derive(Clone, Copy)]
pub struct GlanceCall {
    pub user: u32,
    pub page: u32,
}

impl SeatCall for GlanceCall {
    type Answer = GlanceAnswer;

    ghost deed = { λ call answer. Glance call.user call.page answer };

    #[inline(always)]
    fn make(&self, seat: &mut Seat) -> GlanceAnswer {
        seat.glance(self.user, self.page)
    }
}

/// The first found look is taken.
#[derive(Clone, Copy)]
pub struct TakeFoundCall;

impl SeatCall for TakeFoundCall {
    type Answer = Option<Found>;

    ghost deed = { λ _ taken. TakeFound taken };

    #[inline(always)]
    fn make(&self, seat: &mut Seat) -> Option<Found> {
        seat.take_found()
    }
}

/// The seat retires.
#[derive(Clone, Copy)]
pub struct RetireCall;

impl SeatCall for RetireCall {
    type Answer = TurnAnswer;

    ghost deed = { λ _ answer. Retire answer };

    #[inline(always)]
    fn make(&self, seat: &mut Seat) -> TurnAnswer {
        seat.retire()
    }
}

/// A seat that is gone comes back.
#[derive(Clone, Copy)]
pub struct ComeBackCall;

impl SeatCall for ComeBackCall {
    type Answer = TurnAnswer;

    ghost deed = { λ _ answer. ComeBack answer };

    #[inline(always)]
    fn make(&self, seat: &mut Seat) -> TurnAnswer {
        seat.come_back()
    }
}

/// A user's last like is told.
#[derive(Clone, Copy)]
pub struct LastCall {
    pub user: u32,
}

impl SeatCall for LastCall {
    type Answer = Result<Option<u32>, Verdict>;

    ghost deed = { λ call answer. Last call.user answer };

    #[inline(always)]
    fn make(&self, seat: &mut Seat) -> Result<Option<u32>, Verdict> {
        seat.last(self.user)
    }
}
