//! A host: two threads like a page at one service, while a third drives it.
ghost use Rattle.std.specs.Prelude.{◌≡◌, ◌≢◌, ℕ, ◌+◌, ◌<◌, ◌≤◌, IfOk, IfSome, Ok, Some, length};
ghost use Rattle.std.specs.Thread.{IsSync};
ghost use Rattle.like_shared.specs.Shared.{IsClient, IsServiceKeeper, seats_told};
ghost use Rattle.like_hosts.specs.Hosts.{HasGrown, IsHosted};
ghost use Rattle.like_hosts.specs.Likes.{LikesNone, LikesOnly, likes_in};

use crate::calls::{drive, like_all, retire_all};
use like_live::{OpenError, Opening};
use like_shared::{Client, ServiceKeeper, SharedService};
use std::alloc::{AllocError, Global};
use std::thread::{Threads, join_mut};

/// Opens a service, has two threads like a page for these users, and closes it. If it is closed, how many likes the two
/// were told: one thread could have done all that they did, and the page's count alone has grown, by these likes.
pub fn host<R: Threads + Sync>(
    rt: &R,
    alloc: Global,
    opening: &Opening,
    page: u32,
    by_one: &[u32],
    by_two: &[u32],
    counts: &mut [u64],
) -> Result<Option<u64>, OpenError>
    requires places { length counts.old ≡ length opening.now.counts.items }
    requires page { page < length counts.old }
    ensures strict { IfOk result (λ closed. IfSome closed (λ _. IsHosted opening.now counts.new)) }
    ensures grown { IfOk result (λ closed. IfSome closed (λ likes. HasGrown opening.now page likes counts.new)) }
    ensures few { IfOk result (λ closed. IfSome closed (λ likes. likes ≤ length by_one.now + length by_two.now)) }
    ensures unchanged { ((likes : ℕ) → result ≢ Ok (Some likes)) → counts.new ≡ counts.old }
{
    let (service, mut keeper) = SharedService::open(alloc, opening)?;
    let mut one = new_client(&service, alloc, &mut keeper)?;
    let mut two = new_client(&service, alloc, &mut keeper)?;
    let mut third = new_client(&service, alloc, &mut keeper)?;
    let liked = work(
        rt, &service, &mut one, &mut two, &mut third, page, by_one, by_two,
    );
    service.take_back(&mut keeper, two);
    service.take_back(&mut keeper, third);
    service.take_back(&mut keeper, one);
    let Ok(()) = service.close(keeper, counts) else {
        return Ok(None);
    };
    Ok(Some(liked))
}

// Another client.
fn new_client(
    service: &SharedService,
    alloc: Global,
    keeper: &mut ServiceKeeper,
) -> Result<Client, OpenError>
    requires { IsServiceKeeper service.now keeper.old }
    ensures keeper { IsServiceKeeper service.now keeper.new }
    ensures told { seats_told keeper.new ≡ seats_told keeper.old }
    ensures client { IfOk result (λ client. IsClient service.now client) }
    ensures likes { (page : ℕ) → IfOk result (λ client. likes_in page client ≡ 0) }
{
    match service.new_client(alloc, keeper) {
        Ok(client) => Ok(client),
        Err(AllocError) => Err(OpenError::Memory),
    }
}

// Two threads like a page, while a third does the phase work. How many likes the two were told.
fn work<R: Threads + Sync>(
    rt: &R,
    service: &SharedService,
    one: &mut Client,
    two: &mut Client,
    third: &mut Client,
    page: u32,
    by_one: &[u32],
    by_two: &[u32],
) -> u64
    requires one { IsClient service.now one.old }
    requires two { IsClient service.now two.old }
    requires third { IsClient service.now third.old }
    ensures one { IsClient service.now one.new }
    ensures two { IsClient service.now two.new }
    ensures third { IsClient service.now third.new }
    ensures likes { likes_in page one.new + likes_in page two.new
        ≡ likes_in page one.old + likes_in page two.old + result }
    ensures only { LikesOnly page by_one.now one.old one.new × LikesOnly page by_two.now two.old two.new }
    ensures few { result ≤ length by_one.now + length by_two.now }
    ensures none { LikesNone third.old third.new }
{
    let (liked, ()) = join_mut(
        rt,
        &mut || -> u64
            requires sync { IsSync R.row }
            requires one { IsClient service.now one.now }
            requires two { IsClient service.now two.now }
            ensures one { IsClient service.entry.now one.exit.now }
            ensures two { IsClient service.entry.now two.exit.now }
            ensures likes { likes_in page one.exit.now + likes_in page two.exit.now
                ≡ likes_in page one.entry.now + likes_in page two.entry.now + result }
            ensures only { LikesOnly page by_one.entry.now one.entry.now one.exit.now
                × LikesOnly page by_two.entry.now two.entry.now two.exit.now }
            ensures few { result ≤ length by_one.entry.now + length by_two.entry.now }
        { like_both(rt, service, one, two, page, by_one, by_two) },
        &mut || drive(service, third),
    );
    liked
}

// Two threads like a page, and then all seats retire. How many likes they were told.
fn like_both<R: Threads + Sync>(
    rt: &R,
    service: &SharedService,
    one: &mut Client,
    two: &mut Client,
    page: u32,
    by_one: &[u32],
    by_two: &[u32],
) -> u64
    requires one { IsClient service.now one.old }
    requires two { IsClient service.now two.old }
    ensures one { IsClient service.now one.new }
    ensures two { IsClient service.now two.new }
    ensures likes { likes_in page one.new + likes_in page two.new
        ≡ likes_in page one.old + likes_in page two.old + result }
    ensures only { LikesOnly page by_one.now one.old one.new × LikesOnly page by_two.now two.old two.new }
    ensures few { result ≤ length by_one.now + length by_two.now }
{
    let (told_one, told_two) = join_mut(
        rt,
        &mut || like_all(service, one, page, by_one),
        &mut || like_all(service, two, page, by_two),
    );
    retire_all(service, one);
    told_one + told_two
}
