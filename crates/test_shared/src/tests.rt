//! The hosts are tried with two pages, and each call of a client and of a hub is made.
ghost use Rattle.std.specs.Prelude.{◌≡◌, IfOk, length};
ghost use Rattle.told_lock.specs.Rights.{IsKeeper};
ghost use Rattle.like_shared.specs.Shared.{IsServiceKeeper, pages_of};

use crate::scenes::{each_call, holding_a_seat};
use crate::steps::{Part, make_parts};
use like_hosts::calls::retire_all;
use like_hosts::host::host;
use like_hosts::hub;
use like_live::Opening;
use like_shared::{Cards, Hub, NoClient, ServiceKeeper, SharedService};
use std::alloc::{AllocError, Global};
use std::process::Abort;
use std::test::*;

// Two pages with 10 and 20 likes, the first of them marked, and users 0 to 3 of two seats.
fn opening(alloc: Global) -> Result<Opening, AllocError>
    ensures { IfOk result (λ o. length o.counts.items ≡ 2) }
{
    Ok(Opening {
        counts: Vec::from_slice(alloc, &[10, 20])?,
        marks: Vec::from_slice(alloc, &[0])?,
        seats: 2,
        users: 4,
        lasts: Vec::new(alloc),
        room: 2,
        hot: None,
    })
}

#[test]
fn two_threads_like(rt: HostRuntime) -> Result<(), Fail> {
    let alloc = rt.alloc();
    let opening = opening(alloc)?;
    let mut counts = [0; 2];
    let users: [u32; 5] = [0, 1, 2, 3, 9];
    let liked = match host(&rt, alloc, &opening, 0, &users, &users, &mut counts) {
        Ok(liked) => liked,
        Err(_) => return Err(Fail::new("no service")),
    };
    assert_eq!(rt; liked, Some(8));
    assert_eq!(rt; counts, [18, 20]);
    Ok(())
}

#[test]
fn threads_come_and_leave(rt: HostRuntime) -> Result<(), Fail> {
    let alloc = rt.alloc();
    let opening = opening(alloc)?;
    let mut counts = [0; 2];
    let users: [u32; 5] = [0, 1, 2, 3, 9];
    let closed = hub::host(&rt, alloc, &opening, 0, &users, &mut counts);
    assert!(rt; matches!(closed, Ok(true)));
    assert_eq!(rt; counts, [18, 20]);
    Ok(())
}

#[test]
fn many_come_one_after_another(rt: HostRuntime) -> Result<(), Fail> {
    let alloc = rt.alloc();
    let opening = opening(alloc)?;
    let mut counts = [0; 2];
    let closed = hub::host_many(alloc, &opening, 0, &[0], 1_000, &mut counts);
    assert!(rt; matches!(closed, Ok(true)));
    assert_eq!(rt; counts, [1_010, 20]);
    Ok(())
}

// A service of two pages, with its keeper.
fn opened(alloc: Global) -> Result<(SharedService, ServiceKeeper), Fail>
    ensures keeper { IfOk result (λ r. IsServiceKeeper r.0 r.1) }
    ensures pages { IfOk result (λ r. pages_of r.0 ≡ 2) }
{
    let opening = opening(alloc)?;
    match SharedService::open(alloc, &opening) {
        Ok(service) => Ok(service),
        Err(_) => Err(Fail::new("no service")),
    }
}

// Has two clients make the calls of a scene.
fn plays(rt: &impl Abort, alloc: Global, parts: &[Part]) -> Result<(), Fail> {
    let (service, mut keeper) = opened(alloc)?;
    let mut one = service.new_client(alloc, &mut keeper)?;
    let mut two = service.new_client(alloc, &mut keeper)?;
    make_parts(rt, &service, &mut one, &mut two, parts);
    Ok(())
}

#[test]
fn each_call_is_answered(rt: HostRuntime) -> Result<(), Fail> {
    plays(&rt, rt.alloc(), each_call())
}

#[test]
fn a_seat_that_is_held_is_busy(rt: HostRuntime) -> Result<(), Fail> {
    plays(&rt, rt.alloc(), holding_a_seat())
}

// A hub of two pages, of which no card is out.
fn opened_hub(alloc: Global) -> Result<(Hub, Cards), Fail>
    ensures cards { IfOk result (λ r. IsKeeper r.0.desk r.1) }
    ensures out { IfOk result (λ r. r.1.out ≡ 0) }
    ensures pages { IfOk result (λ r. pages_of r.0.service ≡ 2) }
{
    let opening = opening(alloc)?;
    match Hub::open(alloc, &opening) {
        Ok(hub) => Ok(hub),
        Err(_) => Err(Fail::new("no hub")),
    }
}

#[test]
fn one_is_at_the_desk(rt: HostRuntime) -> Result<(), Fail> {
    let alloc = rt.alloc();
    let (hub, mut cards) = opened_hub(alloc)?;
    assert!(rt; hub.pages() == 2 && hub.has_pages(1, 1) && !hub.has_pages(1, 2));
    let mut card = hub.new_card(&mut cards);
    let mut other = hub.new_card(&mut cards);
    if !hub.enter(&mut card) {
        return Err(Fail::new("the desk is taken"));
    }
    let client = hub.make_there(alloc, &mut card)?;
    assert!(rt; matches!(hub.new_client(alloc, &mut other), Err(NoClient::Busy)));
    hub.park_there(&mut card, client);
    assert!(rt; matches!(hub.new_client(alloc, &mut other), Ok(_)));
    Ok(())
}

#[test]
fn cards_come_back(rt: HostRuntime) -> Result<(), Fail> {
    let (hub, mut cards) = opened_hub(rt.alloc())?;
    let mut card = hub.new_card(&mut cards);
    let Ok(mut client) = hub.new_client(rt.alloc(), &mut card) else {
        return Err(Fail::new("no client"));
    };
    retire_all(hub.service(), &mut client);
    let Ok(()) = hub.park(&mut card, client) else {
        return Err(Fail::new("the desk is taken"));
    };
    hub.take_card(&mut cards, card);
    let mut counts = [0; 2];
    assert!(rt; matches!(hub.close_with(cards, &mut counts), Ok(())));
    assert_eq!(rt; counts, [10, 20]);
    Ok(())
}
