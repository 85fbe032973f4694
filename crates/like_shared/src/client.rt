//! A thread's client of a shared service, and its calls.
ghost use Rattle.std.specs.Prelude.{◌≡◌, ◌+◌, ◌<◌, ◌≤◌, IfErr, IfNone, IfOk, IsFalse, MatchResult, Ok, drop, false, length, slice_set, true};
ghost use Rattle.like_requests.specs.Verdict.{home};
ghost use Rattle.like_shared.specs.declared.deed.DriverDeed.TheVariants as driver_deed;
ghost use Rattle.like_shared.specs.declared.deed.SeatDeed.TheVariants as deed;
ghost use Rattle.like_shared.specs.Rows.{AreAnswered, IsToldOf, deeds_of_call, row_deeds};
ghost use Rattle.like_shared.specs.Shared.{AreLogged, HasSameLogs, IsClient, IsDriverLogged, IsLogged, held_by, holds, pages_of, seats_of};

use crate::driver::{DriverCall, DriverPass, try_drive};
use crate::driver_calls::{
    DriverTurnCall, LastCountsCall, ProposeCall, SnapshotCall, SplitPagesCall,
};
use crate::seat_call::{Busy, SeatCall, SeatPass, try_call};
use crate::seat_calls::{
    ComeBackCall, GlanceCall, LastCall, LikeCall, LookCall, RetireCall, TakeFoundCall, TurnCall,
};
use crate::seat_lock::{try_lock, unlock};
use crate::seat_row::{SeatRow, try_row};
use crate::seat_rows::{CallRow, LastsRow, LikeRow};
use crate::service::SharedService;
use like_live::{
    Answer, Call, DriverAnswer, End, Found, GlanceAnswer, LikeAnswer, LikePair, LookAnswer,
    RowAnswer, TurnAnswer,
};
use like_requests::Verdict;

/// The right of one thread to call a shared service: a pass of each seat, and one of its driver. It may hold seats, which
/// it then calls without taking them.
#[derive(Drop)]
pub struct Client {
    pub(crate) seats: Vec<SeatPass>,
    pub(crate) driver: DriverPass,
}

impl Client {
    /// Counts a user's like of a page, which is then the user's last.
    #[inline(always)]
    pub fn like(
        &mut self,
        service: &SharedService,
        user: u32,
        page: u32,
    ) -> Result<LikeAnswer, Busy>
        requires { IsClient service.now self.old }
        ensures client { IsClient service.now self.new }
        ensures log { IsLogged self.old (home (seats_of service.now) user) (deed.Like user page) result self.new }
    {
        self.call_for(service, user, &LikeCall { user, page })
    }

    /// Looks at a page for a user. A look that waits is found later, with its tag.
    #[inline(always)]
    pub fn look(
        &mut self,
        service: &SharedService,
        user: u32,
        page: u32,
        tag: u64,
    ) -> Result<LookAnswer, Busy>
        requires { IsClient service.now self.old }
        ensures client { IsClient service.now self.new }
        ensures log { IsLogged self.old (home (seats_of service.now) user) (deed.Look user page tag) result self.new }
    {
        self.call_for(service, user, &LookCall { user, page, tag })
    }

    /// Looks at a page for a user, and never waits. If the page is split now, the count may lack likes.
    #[inline(always)]
    pub fn glance(
        &mut self,
        service: &SharedService,
        user: u32,
        page: u32,
    ) -> Result<GlanceAnswer, Busy>
        requires { IsClient service.now self.old }
        ensures client { IsClient service.now self.new }
        ensures log { IsLogged self.old (home (seats_of service.now) user) (deed.Glance user page) result self.new }
    {
        self.call_for(service, user, &GlanceCall { user, page })
    }

    /// The page of a user's last like, if there is one.
    #[inline(always)]
    pub fn last(
        &mut self,
        service: &SharedService,
        user: u32,
    ) -> Result<Result<Option<u32>, Verdict>, Busy>
        requires { IsClient service.now self.old }
        ensures client { IsClient service.now self.new }
        ensures log { IsLogged self.old (home (seats_of service.now) user) (deed.Last user) result self.new }
    {
        self.call_for(service, user, &LastCall { user })
    }

    /// Does the phase work of a seat.
    #[inline(always)]
    pub fn turn(&mut self, service: &SharedService, seat: usize) -> Result<TurnAnswer, Busy>
        requires client { IsClient service.now self.old }
        requires seat { seat < seats_of service.now }
        ensures client { IsClient service.now self.new }
        ensures log { IsLogged self.old seat deed.Turn result self.new }
    {
        self.call(service, seat, &TurnCall)
    }

    /// Takes the first found look of a seat, if there is one.
    #[inline(always)]
    pub fn take_found(
        &mut self,
        service: &SharedService,
        seat: usize,
    ) -> Result<Option<Found>, Busy>
        requires client { IsClient service.now self.old }
        requires seat { seat < seats_of service.now }
        ensures client { IsClient service.now self.new }
        ensures log { IsLogged self.old seat deed.TakeFound result self.new }
    {
        self.call(service, seat, &TakeFoundCall)
    }

    /// Retires a seat.
    #[inline(always)]
    pub fn retire(&mut self, service: &SharedService, seat: usize) -> Result<TurnAnswer, Busy>
        requires client { IsClient service.now self.old }
        requires seat { seat < seats_of service.now }
        ensures client { IsClient service.now self.new }
        ensures log { IsLogged self.old seat deed.Retire result self.new }
    {
        self.call(service, seat, &RetireCall)
    }

    /// Brings a seat back that is gone.
    #[inline(always)]
    pub fn come_back(&mut self, service: &SharedService, seat: usize) -> Result<TurnAnswer, Busy>
        requires client { IsClient service.now self.old }
        requires seat { seat < seats_of service.now }
        ensures client { IsClient service.now self.new }
        ensures log { IsLogged self.old seat deed.ComeBack result self.new }
    {
        self.call(service, seat, &ComeBackCall)
    }

    /// Makes the calls of rows one by one at a seat, and writes their answers: up to the first that must be made again,
    /// or to the end of the shorter list. The answer says how many were done.
    pub fn run(
        &mut self,
        service: &SharedService,
        seat: usize,
        rows: &[Call],
        answers: &mut [Answer],
    ) -> Result<usize, Busy>
        requires client { IsClient service.now self.old }
        requires seat { seat < seats_of service.now }
        ensures client { IsClient service.now self.new }
        ensures log { AreLogged self.old seat (row_deeds deeds_of_call rows.now answers.new) result self.new }
        ensures answers { MatchResult result (AreAnswered Ok (λ a. a) rows.now answers.old answers.new)
            (λ _. answers.new ≡ answers.old) }
    {
        self.row(service, seat, &CallRow { calls: rows }, answers)
    }

    /// Counts likes of a seat's users in their order, up to the first that isn't counted. It makes one look at the phase
    /// word for all of them, and writes no answer for each.
    pub fn like_row(
        &mut self,
        service: &SharedService,
        seat: usize,
        likes: &[LikePair],
    ) -> Result<RowAnswer, Busy>
        requires client { IsClient service.now self.old }
        requires seat { seat < seats_of service.now }
        ensures client { IsClient service.now self.new }
        ensures log { IsLogged self.old seat (deed.LikeRow likes.now) result self.new }
        ensures told { IfOk result (IsToldOf likes.now) }
    {
        self.row(service, seat, &LikeRow { likes }, &mut [])
    }

    /// Writes the last likes of a seat's users from rank `from` on: each one's page, or `NO_PAGE`. With rank `i` at
    /// seat `s` is user `i * seats + s`. The answer says whether the seat has so many users. Otherwise nothing is
    /// written.
    pub fn lasts(
        &mut self,
        service: &SharedService,
        seat: usize,
        from: u32,
        pages: &mut [u32],
    ) -> Result<bool, Busy>
        requires client { IsClient service.now self.old }
        requires seat { seat < seats_of service.now }
        ensures client { IsClient service.now self.new }
        ensures log { IsLogged self.old seat (deed.Lasts from pages.new) result self.new }
        ensures pages { MatchResult result (λ is_done. IsFalse is_done → pages.new ≡ pages.old)
            (λ _. pages.new ≡ pages.old) }
    {
        self.row(service, seat, &LastsRow { from }, pages)
    }

    /// Locks a seat: this client holds it until `unlock`, and its calls there take nothing. Other clients are told `Busy`
    /// there.
    pub fn lock(&mut self, service: &SharedService, seat: usize) -> Result<(), Busy>
        requires client { IsClient service.now self.old }
        requires seat { seat < seats_of service.now }
        ensures client { IsClient service.now self.new }
        ensures held { MatchResult result (λ _. held_by self.new ≡ slice_set (held_by self.old) seat true)
            (λ _. held_by self.new ≡ held_by self.old) }
        ensures free { IfErr result (λ _. IsFalse (holds self.old seat)) }
        ensures logs { HasSameLogs self.old self.new }
    {
        try_lock(&service.seats[seat], &mut self.seats[seat])
    }

    /// Unlocks a seat. If this client doesn't hold it, nothing is done.
    pub fn unlock(&mut self, service: &SharedService, seat: usize)
        requires client { IsClient service.now self.old }
        requires seat { seat < seats_of service.now }
        ensures client { IsClient service.now self.new }
        ensures held { held_by self.new ≡ slice_set (held_by self.old) seat false }
        ensures logs { HasSameLogs self.old self.new }
    {
        unlock(&service.seats[seat], &mut self.seats[seat]);
    }

    // Makes a call of a user's seat.
    #[inline(always)]
    fn call_for<Q: SeatCall>(
        &mut self,
        service: &SharedService,
        user: u32,
        call: &Q,
    ) -> Result<Q::Answer, Busy>
        requires { IsClient service.now self.old }
        ensures client { IsClient service.now self.new }
        ensures log { IsLogged self.old (home (seats_of service.now) user) (Q.deed call.now) result self.new }
    {
        self.call(service, service.seat_of(user), call)
    }

    /// Makes a call of a seat. If a call of a user names its seat, no user's seat has to be found: at any other seat the
    /// user is refused, as `OtherHome`.
    #[inline(always)]
    pub fn call<Q: SeatCall>(
        &mut self,
        service: &SharedService,
        seat: usize,
        call: &Q,
    ) -> Result<Q::Answer, Busy>
        requires client { IsClient service.now self.old }
        requires seat { seat < seats_of service.now }
        ensures client { IsClient service.now self.new }
        ensures log { IsLogged self.old seat (Q.deed call.now) result self.new }
    {
        try_call(&service.seats[seat], &mut self.seats[seat], call)
    }

    /// Makes the calls of a row at a seat, under one taking of its lock.
    pub fn row<Q: SeatRow>(
        &mut self,
        service: &SharedService,
        seat: usize,
        row: &Q,
        places: &mut [Q::Written],
    ) -> Result<Q::Answer, Busy>
        requires client { IsClient service.now self.old }
        requires seat { seat < seats_of service.now }
        ensures client { IsClient service.now self.new }
        ensures log { AreLogged self.old seat (λ answer. Q.deeds row.now answer places.new) result self.new }
        ensures places { MatchResult result (λ answer. Q.writes row.now answer places.old places.new)
            (λ _. places.new ≡ places.old) }
    {
        try_row(&service.seats[seat], &mut self.seats[seat], row, places)
    }

    /// Has the driver take a turn.
    pub fn turn_driver(&mut self, service: &SharedService, end: End) -> Result<DriverAnswer, Busy>
        requires { IsClient service.now self.old }
        ensures client { IsClient service.now self.new }
        ensures log { IsDriverLogged self.old (driver_deed.Turn end) result self.new }
    {
        self.drive(service, &DriverTurnCall { end }, &mut [])
    }

    /// Proposes these pages for slots.
    pub fn propose(&mut self, service: &SharedService, pages: &[u32]) -> Result<(), Busy>
        requires { IsClient service.now self.old }
        ensures client { IsClient service.now self.new }
        ensures log { IsDriverLogged self.old (λ _. driver_deed.Propose pages.now) result self.new }
    {
        self.drive(service, &ProposeCall { pages }, &mut [])
    }

    /// Writes the counts of the pages from `from` on, if all seats are in at the end of a joined phase. The answer is that
    /// phase.
    pub fn snapshot(
        &mut self,
        service: &SharedService,
        from: u32,
        counts: &mut [u64],
    ) -> Result<Option<u64>, Busy>
        requires client { IsClient service.now self.old }
        requires places { from + length counts.old ≤ pages_of service.now }
        ensures client { IsClient service.now self.new }
        ensures log { IsDriverLogged self.old (driver_deed.Snapshot from counts.new) result self.new }
        ensures counts { MatchResult result (λ phase. IfNone phase (counts.new ≡ counts.old))
            (λ _. counts.new ≡ counts.old) }
    {
        self.drive(service, &SnapshotCall { from }, counts)
    }

    /// Writes the pages that are split in the present or the last split phase, as many as there is room for. The answer
    /// is how many.
    pub fn split_pages(&mut self, service: &SharedService, pages: &mut [u32]) -> Result<usize, Busy>
        requires { IsClient service.now self.old }
        ensures client { IsClient service.now self.new }
        ensures log { IsDriverLogged self.old (driver_deed.SplitPages pages.new) result self.new }
        ensures rest { MatchResult result (λ many. drop many pages.new ≡ drop many pages.old)
            (λ _. pages.new ≡ pages.old) }
    {
        self.drive(service, &SplitPagesCall, pages)
    }

    /// Writes the last counts of the pages from `from` on, if all seats are gone, and says whether it did. Then the
    /// service is over: no phase is released.
    pub fn last_counts(
        &mut self,
        service: &SharedService,
        from: u32,
        counts: &mut [u64],
    ) -> Result<bool, Busy>
        requires client { IsClient service.now self.old }
        requires places { from + length counts.old ≤ pages_of service.now }
        ensures client { IsClient service.now self.new }
        ensures log { IsDriverLogged self.old (driver_deed.LastCounts from counts.new) result self.new }
        ensures counts { MatchResult result (λ is_done. IsFalse is_done → counts.new ≡ counts.old)
            (λ _. counts.new ≡ counts.old) }
    {
        self.drive(service, &LastCountsCall { from }, counts)
    }

    /// Makes a call of the driver.
    pub fn drive<Q: DriverCall>(
        &mut self,
        service: &SharedService,
        call: &Q,
        places: &mut [Q::Written],
    ) -> Result<Q::Answer, Busy>
        requires client { IsClient service.now self.old }
        requires places { Q.reach call.now (length places.old) ≤ pages_of service.now }
        ensures client { IsClient service.now self.new }
        ensures log { IsDriverLogged self.old (λ answer. Q.deed call.now answer places.new) result self.new }
        ensures places { MatchResult result (λ answer. Q.writes call.now answer places.old places.new)
            (λ _. places.new ≡ places.old) }
    {
        try_drive(&service.driver, &mut self.driver, call, places)
    }
}
