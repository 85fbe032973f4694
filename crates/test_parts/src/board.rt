ghost use Rattle.std.specs.Prelude.{◌≡◌, ◌+◌, ◌≤◌, false, true, IfOk, IfSome, IsTrue, slice_index, vec_len};
ghost use Rattle.like_limits.specs.Limits.{hot_pages, max_count};
ghost use Rattle.like_core.specs.declared.worker_state.WorkerState.TheVariants.{Gone};
ghost use Rattle.like_core.specs.OpeningLimits.{AreLimits, run_limits};
ghost use Rattle.like_core.specs.Post.{IsFresh, additions_of};
ghost use Rattle.like_core.specs.core.Moves.{LetsReturn};
ghost use Rattle.like_board.specs.Seats.{board_id, coord_board, coord_view, post_numbers, post_view, seat_view};
ghost use Rattle.test_parts.specs.Walk.{AreOpened, IsCoordOf, IsWorkerAt, KeepsSeat, seat_numbers};

mod calls;
mod leader;
mod missing;
mod party;
mod scripts;
mod walker;

use crate::asserts::{assert_named, assert_same};
use crate::pure_core::small_limits;
use calls::{OnPost, Step};
use leader::Leader;
use like_board::{Board, BoardPost, CoordSeat, WorkerSeat};
use like_core::{Glances, Limits, Post, Returns, WorkerState};
use like_seat::come_back;
use missing::Missing;
use party::Party;
use scripts::{each_call, five_phases, hot_phase, likes, three_phases};
use std::alloc::{AllocError, Global};
use std::process::Abort;
use std::test::Fail;
use walker::Walker;

// The last of the workers' seats, taken to its board, which has this many pages.
fn last_walker<'a>(
    rt: &impl Abort,
    seats: &mut Vec<WorkerSeat>,
    board: &'a Board,
    coord: &CoordSeat,
    limits: Limits,
    pages: u32,
    marked: bool,
) -> Walker<BoardPost<'a>>
    requires { AreOpened (board_id board.now) pages marked limits coord.now seats.old.items }
    ensures last { vec_len seats.old ≡ vec_len seats.new + 1 }
    ensures at { IsWorkerAt (coord_board coord.now) (vec_len seats.new) (post_numbers result.post)
        (post_view result.post) }
    ensures rest { AreOpened (board_id board.now) pages marked limits coord.now seats.new.items }
{
    let seat = seats.pop().expect(rt, "a seat is there");
    Walker::new(seat.at(board), limits, pages, marked)
}

// A board of this many pages that begin at this count, with the coordinator's seat and each worker's.
fn opened(
    alloc: Global,
    workers: u32,
    pages: usize,
    count: u64,
    marked: bool,
    limits: Limits,
) -> Result<(Board, CoordSeat, Vec<WorkerSeat>), AllocError>
    requires some { 1 ≤ workers }
    requires few { workers ≤ limits.seats }
    requires some_page { 1 ≤ pages }
    requires few_pages { pages ≤ limits.pages }
    requires small { count ≤ max_count }
    requires limits { AreLimits limits }
    requires plain { limits.hot ≡ hot_pages }
    ensures opened { IfOk result (λ r. AreOpened (board_id r.0) pages marked limits r.1 r.2.items) }
    ensures workers { IfOk result (λ r. (coord_view r.1).opening.workers ≡ workers) }
    ensures counts { IfOk result (λ r. slice_index (coord_view r.1).opening.counts 0 ≡ count) }
{
    let counts = Vec::from_elem(alloc, count, pages)?;
    let marks = Vec::from_elem(alloc, marked, pages)?;
    Board::with_limits(alloc, workers, counts.as_slice(), marks.as_slice(), limits)
}

// Those at a board of one page.
fn party_at<'a>(
    rt: &impl Abort,
    board: &'a Board,
    coord: CoordSeat,
    mut seats: Vec<WorkerSeat>,
    limits: Limits,
    marked: bool,
) -> Party<'a, BoardPost<'a>>
    requires { AreOpened (board_id board.now) 1 marked limits coord seats.items }
    ensures { result.leader.seat ≡ coord }
{
    let second = if seats.len() == 2 {
        Some(last_walker(rt, &mut seats, board, &coord, limits, 1, marked))
    } else {
        None
    };
    assert_named(rt, seats.len() == 1, "one seat is left");
    let first = last_walker(rt, &mut seats, board, &coord, limits, 1, marked);
    Party {
        board,
        leader: Leader::new(coord),
        first,
        second,
    }
}

// The seat of a worker that is gone, and how many likes it added to page 0.
#[derive(Drop)]
struct Left {
    seat: WorkerSeat,
    likes: u64,
    ghost gone: { (seat_view seat).state ≡ Gone },
    ghost added: { additions_of (seat_view seat) 0 ≡ likes },
}

// Gives back the seat of a worker that is gone.
fn left_by(rt: &impl Abort, walker: Walker<BoardPost<'_>>) -> Left
    ensures board { seat_numbers result.seat ≡ post_numbers walker.entry.post }
    ensures view { seat_view result.seat ≡ post_view walker.entry.post }
{
    let Walker { post, known } = walker;
    assert_named(
        rt,
        known.state == WorkerState::Gone,
        "a worker that is gone",
    );
    Left {
        seat: post.back(),
        likes: known.likes,
    }
}

// The workers and the coordinator of a board make calls, and the workers are gone then.
fn walks(
    rt: &impl Abort,
    board: &Board,
    coord: CoordSeat,
    seats: Vec<WorkerSeat>,
    marked: bool,
    parts: &[&[Step]],
) -> (CoordSeat, Left, Option<Left>)
    requires { AreOpened (board_id board.now) 1 marked run_limits coord seats.items }
    ensures coord { KeepsSeat coord result.0 }
    ensures first { IsWorkerAt (coord_board coord) 0 (seat_numbers result.1.seat) (seat_view result.1.seat) }
    ensures second { IfSome result.2
        (λ left. IsWorkerAt (coord_board coord) 1 (seat_numbers left.seat) (seat_view left.seat)) }
{
    let mut party = party_at(rt, board, coord, seats, Limits::of_run(), marked);
    party.plays(rt, parts);
    let Party {
        leader,
        first,
        second,
        ..
    } = party;
    let second = match second {
        Some(second) => Some(left_by(rt, second)),
        None => None,
    };
    (leader.seat, left_by(rt, first), second)
}

// What a page has at the end, and how many likes each worker added to it.
type End = (u64, (u64, u64));

// Two seats are given back. What the page has at the end is its count at the start and the likes of each worker.
fn end_of_two(
    alloc: Global,
    board: Board,
    coord: CoordSeat,
    first: Left,
    second: Left,
) -> Result<End, AllocError>
    requires coord { IsCoordOf (board_id board) 2 coord }
    requires first { IsWorkerAt (coord_board coord) 0 (seat_numbers first.seat) (seat_view first.seat) }
    requires second { IsWorkerAt (coord_board coord) 1 (seat_numbers second.seat) (seat_view second.seat) }
    ensures { IfOk result (λ r. r.0
        ≡ slice_index (coord_view coord).opening.counts 0 + (r.1.0 + r.1.1)) }
{
    let likes = (first.likes, second.likes);
    let mut seats = Vec::with_capacity(alloc, 2)?;
    seats.push_reserved(first.seat);
    seats.push_reserved(second.seat);
    let mut counts = [0];
    board.close(coord, seats, &mut counts);
    Ok((counts[0], likes))
}

// One seat is given back. What the page has at the end is its count at the start and the likes of its worker.
fn end_of_one(alloc: Global, board: Board, coord: CoordSeat, first: Left) -> Result<End, AllocError>
    requires coord { IsCoordOf (board_id board) 1 coord }
    requires first { IsWorkerAt (coord_board coord) 0 (seat_numbers first.seat) (seat_view first.seat) }
    ensures { IfOk result (λ r. r.0
        ≡ slice_index (coord_view coord).opening.counts 0 + (r.1.0 + r.1.1)) }
{
    let mut counts = [0];
    let mut seats = Vec::with_capacity(alloc, 1)?;
    seats.push_reserved(first.seat);
    board.close(coord, seats, &mut counts);
    Ok((counts[0], (first.likes, 0)))
}

// One or two workers make calls with the coordinator, and are gone then.
fn walked(
    rt: &impl Abort,
    alloc: Global,
    workers: u32,
    count: u64,
    marked: bool,
    parts: &[&[Step]],
) -> Result<End, AllocError>
    requires some { 1 ≤ workers }
    requires few { workers ≤ 2 }
    requires small { count ≤ max_count }
    ensures { IfOk result (λ r. r.0 ≡ count + (r.1.0 + r.1.1)) }
{
    let (board, coord, seats) = opened(alloc, workers, 1, count, marked, Limits::of_run())?;
    let (coord, first, second) = walks(rt, &board, coord, seats, marked, parts);
    match second {
        Some(second) => {
            assert_named(rt, workers == 2, "two workers");
            end_of_two(alloc, board, coord, first, second)
        }
        None => {
            assert_named(rt, workers == 1, "one worker");
            end_of_one(alloc, board, coord, first)
        }
    }
}

#[test]
fn walks_through_three_phases(rt: HostRuntime) -> Result<(), Fail> {
    let end = walked(&rt, rt.alloc(), 2, 10, true, three_phases())?;
    assert_same(&rt, "the end", end, (13, (3, 0)));
    Ok(())
}

#[test]
fn walks_through_a_hot_phase(rt: HostRuntime) -> Result<(), Fail> {
    let end = walked(&rt, rt.alloc(), 1, 5, false, hot_phase())?;
    assert_same(&rt, "the end", end, (7, (2, 0)));
    Ok(())
}

// The workers and the coordinator of a board make calls.
fn plays_at(
    rt: &impl Abort,
    board: &Board,
    coord: CoordSeat,
    seats: Vec<WorkerSeat>,
    limits: Limits,
    marked: bool,
    parts: &[&[Step]],
)
    requires { AreOpened (board_id board.now) 1 marked limits coord seats.items }
{
    party_at(rt, board, coord, seats, limits, marked).plays(rt, parts);
}

// Workers of one page and the coordinator make calls.
fn plays(
    rt: &impl Abort,
    alloc: Global,
    workers: u32,
    count: u64,
    marked: bool,
    limits: Limits,
    parts: &[&[Step]],
) -> Result<(), Fail>
    requires some { 1 ≤ workers }
    requires few { workers ≤ limits.seats }
    requires page { 1 ≤ limits.pages }
    requires small { count ≤ max_count }
    requires limits { AreLimits limits }
    requires plain { limits.hot ≡ hot_pages }
{
    let (board, coord, seats) = opened(alloc, workers, 1, count, marked, limits)?;
    plays_at(rt, &board, coord, seats, limits, marked, parts);
    Ok(())
}

// A board whose phase word has the form of a service's.
#[test]
fn goes_through_phases_of_a_service(rt: HostRuntime) -> Result<(), Fail> {
    plays(&rt, rt.alloc(), 1, 5, false, small_limits(), five_phases())
}

// The last of the workers' seats, taken to its board.
fn last_post<'a>(
    rt: &impl Abort,
    seats: &mut Vec<WorkerSeat>,
    board: &'a Board,
    coord: &CoordSeat,
    limits: Limits,
) -> BoardPost<'a>
    requires { AreOpened (board_id board.now) 1 false limits coord.now seats.old.items }
    ensures fresh { IsFresh (post_view result) }
    ensures limits { (post_view result).opening.limits ≡ limits }
{
    let seat = seats.pop().expect(rt, "a seat is there");
    seat.at(board)
}

// Comes back into phase 0, and retires again.
fn comes_and_goes<P: Returns>(post: &mut P) -> bool
    requires gone { (P.view post.old).state ≡ Gone }
    requires lets { LetsReturn (P.view post.old).opening.limits }
    ensures left { IsTrue result → (P.view post.new).state ≡ Gone }
    ensures limits { (P.view post.new).opening.limits ≡ (P.view post.old).opening.limits }
{
    match post.come_back() {
        Some(phase) if phase % 2 == 0 => {
            post.retire();
            phase == 0
        }
        _ => false,
    }
}

// Whether all are gone, and the end of the present phase is announced, which is not the last one.
fn announces(coord: &mut CoordSeat, board: &Board) -> bool
    requires { coord_board coord.old ≡ board_id board.now }
{
    let sight = coord.look(board);
    if !sight.all_gone || sight.ending || coord.is_last() {
        return false;
    }
    coord.announce(board);
    true
}

// The only worker is gone. It comes back while the phase isn't ending, and not while it is.
fn comes_back<P: Returns>(rt: &impl Abort, board: &Board, coord: &mut CoordSeat, post: &mut P)
    requires here { coord_board coord.old ≡ board_id board.now }
    requires gone { (P.view post.old).state ≡ Gone }
    requires lets { LetsReturn (P.view post.old).opening.limits }
{
    assert_named(rt, coord.look(board).all_gone, "the only worker is gone");
    assert_named(rt, comes_and_goes(post), "it comes back into phase 0");
    assert_named(rt, announces(coord, board), "the end is announced");
    assert_same(rt, "a return while the phase ends", post.come_back(), None);
}

// The phase into which a worker that is gone comes back, if it does, where as many tries fail first.
fn comes_back_after<P: Returns + Drop>(post: P, misses: u32) -> Option<u64>
    requires gone { (P.view post).state ≡ Gone }
    requires lets { LetsReturn (P.view post).opening.limits }
{
    come_back(&mut Missing { post, misses })
}

// The last worker of a board retires, and tries to come back: the phase into which it does.
fn last_tries(
    rt: &impl Abort,
    board: &Board,
    coord: &CoordSeat,
    seats: &mut Vec<WorkerSeat>,
    limits: Limits,
    misses: u32,
) -> Option<u64>
    requires opened { AreOpened (board_id board.now) 1 false limits coord.now seats.old.items }
    requires lets { LetsReturn limits }
{
    let mut post = last_post(rt, seats, board, coord, limits);
    post.retire();
    comes_back_after(post, misses)
}

// The phase into which the only worker of a new service comes back, if it does, where as many tries fail first.
fn returns_after(rt: &impl Abort, alloc: Global, misses: u32) -> Result<Option<u64>, Fail> {
    let limits = small_limits();
    let (board, coord, mut seats) = opened(alloc, 1, 1, 10, false, limits)?;
    Ok(last_tries(rt, &board, &coord, &mut seats, limits, misses))
}

// A seat comes back by one of 64 tries, or not.
#[test]
fn tries_64_times(rt: HostRuntime) -> Result<(), Fail> {
    let last = returns_after(&rt, rt.alloc(), 63)?;
    assert_same(&rt, "the last try", last, Some(0));
    let none = returns_after(&rt, rt.alloc(), 64)?;
    assert_same(&rt, "no try is left", none, None);
    Ok(())
}

// The last worker of a board retires and comes back.
fn last_comes_back(
    rt: &impl Abort,
    board: &Board,
    coord: &mut CoordSeat,
    seats: &mut Vec<WorkerSeat>,
    limits: Limits,
)
    requires opened { AreOpened (board_id board.now) 1 false limits coord.old seats.old.items }
    requires lets { LetsReturn limits }
{
    let mut post = last_post(rt, seats, board, coord, limits);
    post.retire();
    comes_back(rt, board, coord, &mut post);
}

#[test]
fn comes_back_to_a_service(rt: HostRuntime) -> Result<(), Fail> {
    let limits = small_limits();
    let (board, mut coord, mut seats) = opened(rt.alloc(), 1, 1, 10, false, limits)?;
    last_comes_back(&rt, &board, &mut coord, &mut seats, limits);
    Ok(())
}

#[test]
fn leads_posts_through_phases(rt: HostRuntime) -> Result<(), Fail> {
    plays(&rt, rt.alloc(), 2, 10, true, Limits::of_run(), each_call())
}

#[test]
fn likes_by_posts(rt: HostRuntime) -> Result<(), Fail> {
    plays(&rt, rt.alloc(), 2, 10, true, Limits::of_run(), likes())
}

// Likes the last page of the most, which has the greatest count, and reads one more.
fn likes_last_page<P: Glances>(rt: &impl Abort, walker: &mut Walker<P>) {
    let like = OnPost::Like(1_023, 1_000_000_000_000_000_000);
    assert_same(
        rt,
        "a like of the last page",
        walker.makes(like),
        Some(like),
    );
    let read = OnPost::Read(1_023, 1_000_000_000_000_000_001);
    assert_same(rt, "the last page", walker.makes(read), Some(read));
}

// The last of sixteen workers likes the last page of a board that has the most.
fn likes_last(rt: &impl Abort, board: &Board, coord: CoordSeat, mut seats: Vec<WorkerSeat>)
    requires { AreOpened (board_id board.now) 1_024 true run_limits coord seats.items }
{
    assert_named(rt, seats.len() == 16, "sixteen seats");
    let limits = Limits::of_run();
    let mut last = last_walker(rt, &mut seats, board, &coord, limits, 1_024, true);
    likes_last_page(rt, &mut last);
}

// A board of the most workers and pages, with the greatest counts.
#[test]
fn holds_the_most(rt: HostRuntime) -> Result<(), Fail> {
    let count = 1_000_000_000_000_000_000;
    let (board, coord, seats) = opened(rt.alloc(), 16, 1_024, count, true, Limits::of_run())?;
    likes_last(&rt, &board, coord, seats);
    Ok(())
}
