//! Calls of a client, each with the answer that is wanted.
ghost use Rattle.std.specs.Prelude.{◌≡◌, ◌<◌};
ghost use Rattle.like_shared.specs.Shared.{IsClient, pages_of, seats_of};

use like_live::{
    Answer, Call, DriverAnswer, End, Found, GlanceAnswer, LikeAnswer, LikePair, LookAnswer,
    RowAnswer, TurnAnswer,
};
use like_shared::{Busy, Client, LikeCall, SharedService};
use std::fmt::Debug;
use std::process::Abort;

/// A call at the seat of a user, with its answer.
#[derive(Clone, Copy)]
pub(crate) enum OnSeat {
    /// A page.
    Like(u32, Result<LikeAnswer, Busy>),
    /// A page and a tag.
    Look(u32, u64, LookAnswer),
    /// A page.
    Glance(u32, GlanceAnswer),
    Last(Option<u32>),
    /// A like of page 0 by this user, made at the seat whosever user that is.
    LikeOf(u32, LikeAnswer),
    /// The last likes of the seat's first two users.
    Lasts([u32; 2]),
    LikeRow(&'static [LikePair], RowAnswer),
    /// Calls that are all made, and their answers.
    Run(&'static [Call; 2], &'static [Answer; 2]),
    Turn(TurnAnswer),
    TakeFound(Option<Found>),
    Retire(TurnAnswer),
    ComeBack(TurnAnswer),
    Lock(Result<(), Busy>),
    Unlock,
}

/// A call of the driver, with its answer.
#[derive(Clone, Copy)]
pub(crate) enum OnDriver {
    Turn(DriverAnswer),
    Propose(&'static [u32]),
    /// The phase that was released last.
    Phase(u64),
    /// The phase of a snapshot, if there is one, and the counts behind it.
    Snapshot(Option<u64>, [u64; 2]),
    /// The only page that is split.
    Splits(u32),
    /// The last counts, which are written.
    LastCounts([u64; 2]),
}

/// A call of a client.
#[derive(Clone, Copy)]
pub(crate) enum Step {
    /// Of this user, or of its seat.
    Seat(u32, OnSeat),
    Driver(OnDriver),
}

/// Which of two clients makes calls.
#[derive(Clone, Copy)]
pub(crate) enum By {
    One,
    Two,
}

/// Calls of one of two clients.
#[derive(Clone, Copy)]
pub(crate) struct Part {
    pub by: By,
    pub steps: &'static [Step],
}

/// A step of a scene: its part, and the step in that.
#[derive(Clone, Copy)]
struct At {
    part: usize,
    step: usize,
}

// Asserts that a call is answered as its step says. A failure is put into words here, so that no proof of a call has
// that.
fn assert_at<T: PartialEq + Debug + Drop>(rt: &impl Abort, at: At, came: T, wanted: T) {
    let At { part, step } = at;
    assert!(rt;
        came == wanted,
        "part {part}, step {step}: {came:?}, not {wanted:?}"
    );
}

// Makes a call of a user.
fn call_user(
    rt: &impl Abort,
    at: At,
    service: &SharedService,
    client: &mut Client,
    user: u32,
    call: OnSeat,
)
    requires { IsClient service.now client.old }
    ensures { IsClient service.now client.new }
{
    match call {
        OnSeat::Like(page, wanted) => assert_at(rt, at, client.like(service, user, page), wanted),
        OnSeat::Look(page, tag, wanted) => {
            assert_at(rt, at, client.look(service, user, page, tag), Ok(wanted));
        }
        OnSeat::Glance(page, wanted) => {
            assert_at(rt, at, client.glance(service, user, page), Ok(wanted));
        }
        OnSeat::Last(wanted) => assert_at(rt, at, client.last(service, user), Ok(Ok(wanted))),
        call => call_seat(rt, at, service, client, service.seat_of(user), call),
    }
}

// Makes a call of a seat.
fn call_seat(
    rt: &impl Abort,
    at: At,
    service: &SharedService,
    client: &mut Client,
    seat: usize,
    call: OnSeat,
)
    requires client { IsClient service.now client.old }
    requires seat { seat < seats_of service.now }
    ensures { IsClient service.now client.new }
{
    match call {
        OnSeat::LikeOf(user, wanted) => {
            let came = client.call(service, seat, &LikeCall { user, page: 0 });
            assert_at(rt, at, came, Ok(wanted));
        }
        OnSeat::Lasts(wanted) => {
            let mut pages = [0; 2];
            assert_at(rt, at, client.lasts(service, seat, 0, &mut pages), Ok(true));
            assert_at(rt, at, pages, wanted);
        }
        OnSeat::LikeRow(likes, wanted) => {
            assert_at(rt, at, client.like_row(service, seat, likes), Ok(wanted));
        }
        OnSeat::Run(calls, wanted) => {
            let mut answers = [Answer::Like(LikeAnswer::Gone); 2];
            assert_at(
                rt,
                at,
                client.run(service, seat, calls, &mut answers),
                Ok(2),
            );
            assert_at(rt, at, answers, *wanted);
        }
        OnSeat::Turn(wanted) => assert_at(rt, at, client.turn(service, seat), Ok(wanted)),
        OnSeat::TakeFound(wanted) => {
            assert_at(rt, at, client.take_found(service, seat), Ok(wanted));
        }
        OnSeat::Retire(wanted) => assert_at(rt, at, client.retire(service, seat), Ok(wanted)),
        OnSeat::ComeBack(wanted) => assert_at(rt, at, client.come_back(service, seat), Ok(wanted)),
        OnSeat::Lock(wanted) => assert_at(rt, at, client.lock(service, seat), wanted),
        OnSeat::Unlock => client.unlock(service, seat),
        _ => rt.panic("a call of a user"),
    }
}

// Makes a call of the driver.
fn call_driver(
    rt: &impl Abort,
    at: At,
    service: &SharedService,
    client: &mut Client,
    call: OnDriver,
)
    requires client { IsClient service.now client.old }
    requires pages { pages_of service.now ≡ 2 }
    ensures { IsClient service.now client.new }
{
    let mut counts = [0; 2];
    match call {
        OnDriver::Turn(wanted) => {
            assert_at(
                rt,
                at,
                client.turn_driver(service, End::IfItServes),
                Ok(wanted),
            );
        }
        OnDriver::Propose(pages) => assert_at(rt, at, client.propose(service, pages), Ok(())),
        OnDriver::Phase(wanted) => assert_at(rt, at, service.phase_now().get(), wanted),
        OnDriver::Snapshot(phase, wanted) => {
            assert_at(rt, at, client.snapshot(service, 0, &mut counts), Ok(phase));
            assert_at(rt, at, counts, wanted);
        }
        OnDriver::Splits(page) => {
            let mut pages = [0; 64];
            assert_at(rt, at, client.split_pages(service, &mut pages), Ok(1));
            assert_at(rt, at, pages[0], page);
        }
        OnDriver::LastCounts(wanted) => {
            assert_at(
                rt,
                at,
                client.last_counts(service, 0, &mut counts),
                Ok(true),
            );
            assert_at(rt, at, counts, wanted);
        }
    }
}

// Makes the calls of a part.
fn make_part(
    rt: &impl Abort,
    part: usize,
    service: &SharedService,
    client: &mut Client,
    steps: &[Step],
)
    requires client { IsClient service.now client.old }
    requires pages { pages_of service.now ≡ 2 }
    ensures { IsClient service.now client.new }
{
    for (number, step) in steps.iter().enumerate() {
        let at = At { part, step: number };
        match *step {
            Step::Seat(user, call) => call_user(rt, at, service, client, user, call),
            Step::Driver(call) => call_driver(rt, at, service, client, call),
        }
    }
}

/// Makes the calls of parts, by two clients, and stops the test if one is answered otherwise than its step says.
pub(crate) fn make_parts(
    rt: &impl Abort,
    service: &SharedService,
    one: &mut Client,
    two: &mut Client,
    parts: &[Part],
)
    requires one { IsClient service.now one.old }
    requires two { IsClient service.now two.old }
    requires pages { pages_of service.now ≡ 2 }
{
    for (number, part) in parts.iter().enumerate() {
        match part.by {
            By::One => make_part(rt, number, service, one, part.steps),
            By::Two => make_part(rt, number, service, two, part.steps),
        }
    }
}
