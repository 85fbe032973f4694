//! What threads do at a shared service, each with its client.
ghost use Rattle.std.specs.Prelude.{◌≡◌, ◌+◌, ◌<◌, ◌≤◌, [], ◌∷◌, if◌then◌else◌, length};
ghost use Rattle.like_shared.specs.Shared.{IsClient, seats_of};
ghost use Rattle.like_hosts.specs.Likes.{LikesNone, LikesOnly, counted, likes_in};

use like_live::{DriverAnswer, End, LikeAnswer, TurnAnswer};
use like_shared::{Busy, Client, SharedService};

// More calls than any schedule needs.
const CALLS: u64 = 1 << 40;

/// Likes a page for each of these users. How many likes are counted.
pub fn like_all(service: &SharedService, client: &mut Client, page: u32, users: &[u32]) -> u64
    requires { IsClient service.now client.old }
    ensures client { IsClient service.now client.new }
    ensures likes { likes_in page client.new ≡ likes_in page client.old + result }
    ensures only { LikesOnly page users.now client.old client.new }
    ensures few { result ≤ length users.now }
{
    let mut liked = 0;
    for user in users {
        if like(service, client, page, *user) {
            liked += 1;
        }
    }
    liked
}

// Likes a page for a user, and tries again until it is counted or refused. Whether it is counted.
fn like(service: &SharedService, client: &mut Client, page: u32, user: u32) -> bool
    requires { IsClient service.now client.old }
    ensures client { IsClient service.now client.new }
    ensures likes { likes_in page client.new ≡ likes_in page client.old + (if result then 1 else 0) }
    ensures only { LikesOnly page (user ∷ []) client.old client.new }
{
    for _ in 0..CALLS {
        let answer = client.like(service, user, page);
        if is_counted(&answer) {
            return true;
        }
        if !is_put_off(&answer) {
            return false;
        }
    }
    false
}

// Whether a like is counted.
fn is_counted(answer: &Result<LikeAnswer, Busy>) -> bool
    ensures { (if result then 1 else 0) ≡ counted answer.now }
{
    matches!(answer, Ok(LikeAnswer::Liked))
}

// Whether a like must be made again.
fn is_put_off(answer: &Result<LikeAnswer, Busy>) -> bool {
    matches!(answer, Ok(LikeAnswer::Between) | Err(Busy))
}

/// Has the driver and all seats take turns until all seats are gone.
pub fn drive(service: &SharedService, client: &mut Client)
    requires { IsClient service.now client.old }
    ensures client { IsClient service.now client.new }
    ensures likes { LikesNone client.old client.new }
{
    for _ in 0..CALLS {
        if let Ok(DriverAnswer::Ended) = client.turn_driver(service, End::IfItServes) {
            return;
        }
        turn_all(service, client);
    }
}

// Does the phase work of all seats.
fn turn_all(service: &SharedService, client: &mut Client)
    requires { IsClient service.now client.old }
    ensures client { IsClient service.now client.new }
    ensures likes { LikesNone client.old client.new }
{
    for seat in 0..service.seat_count() {
        let _ = client.turn(service, seat);
    }
}

/// Retires all seats.
pub fn retire_all(service: &SharedService, client: &mut Client)
    requires { IsClient service.now client.old }
    ensures client { IsClient service.now client.new }
    ensures likes { LikesNone client.old client.new }
{
    for seat in 0..service.seat_count() {
        retire(service, client, seat);
    }
}

// Retires a seat.
fn retire(service: &SharedService, client: &mut Client, seat: usize)
    requires client { IsClient service.now client.old }
    requires seat { seat < seats_of service.now }
    ensures client { IsClient service.now client.new }
    ensures likes { LikesNone client.old client.new }
{
    for _ in 0..CALLS {
        if let Ok(TurnAnswer::Gone) = client.retire(service, seat) {
            return;
        }
    }
}
