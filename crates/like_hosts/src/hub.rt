//! Hosts of a hub: threads come, like a page, and leave.
ghost use Rattle.std.specs.Prelude.{◌≡◌, ◌≢◌, IfOk, IfSome, IsTrue, Ok, length, true};
ghost use Rattle.std.specs.Thread.{IsSync};
ghost use Rattle.told_lock.specs.Rights.{IsIdle};
ghost use Rattle.like_shared.specs.Shared.{IsClient};
ghost use Rattle.like_hosts.specs.Hosts.{IsHosted};

use crate::calls::{drive, like_all, retire_all};
use like_live::{OpenError, Opening};
use like_shared::{Card, Client, Hub, NoClient};
use std::alloc::Global;
use std::thread::{Threads, join_mut};

// More tries than any schedule needs.
const TRIES: u64 = 1 << 40;

/// Opens a hub, which two threads visit while a third drives it, and closes it. Whether it is closed: then one thread
/// could have done all that they did.
pub fn host<R: Threads + Sync>(
    rt: &R,
    alloc: Global,
    opening: &Opening,
    page: u32,
    users: &[u32],
    counts: &mut [u64],
) -> Result<bool, OpenError>
    requires { length counts.old ≡ length opening.now.counts.items }
    ensures strict { IfOk result (λ closed. IsTrue closed → IsHosted opening.now counts.new) }
    ensures unchanged { result ≢ Ok true → counts.new ≡ counts.old }
{
    let (hub, mut cards) = Hub::open(alloc, opening)?;
    let mut one = hub.new_card(&mut cards);
    let mut two = hub.new_card(&mut cards);
    let mut third = hub.new_card(&mut cards);
    visit_all(rt, &hub, alloc, &mut one, &mut two, &mut third, page, users);
    let Ok(()) = hub.close(counts) else {
        return Ok(false);
    };
    Ok(true)
}

/// Opens a hub, which this thread visits so many times, each time with another card, and closes it. Whether it is
/// closed: then the theorem holds of all visits.
pub fn host_many(
    alloc: Global,
    opening: &Opening,
    page: u32,
    users: &[u32],
    many: u32,
    counts: &mut [u64],
) -> Result<bool, OpenError>
    requires { length counts.old ≡ length opening.now.counts.items }
    ensures strict { IfOk result (λ closed. IsTrue closed → IsHosted opening.now counts.new) }
    ensures unchanged { result ≢ Ok true → counts.new ≡ counts.old }
{
    let (hub, mut cards) = Hub::open(alloc, opening)?;
    for _ in 0..many {
        let mut card = hub.new_card(&mut cards);
        visit(&hub, alloc, &mut card, page, users);
    }
    let mut card = hub.new_card(&mut cards);
    visit_last(&hub, alloc, &mut card);
    let Ok(()) = hub.close(counts) else {
        return Ok(false);
    };
    Ok(true)
}

// Two threads visit a hub while a third drives it.
fn visit_all<R: Threads + Sync>(
    rt: &R,
    hub: &Hub,
    alloc: Global,
    one: &mut Card,
    two: &mut Card,
    third: &mut Card,
    page: u32,
    users: &[u32],
)
    requires one { IsIdle hub.now.desk one.old }
    requires two { IsIdle hub.now.desk two.old }
    requires third { IsIdle hub.now.desk third.old }
{
    join_mut(
        rt,
        &mut ||
            requires sync { IsSync R.row }
            requires one { IsIdle hub.now.desk one.now }
            requires two { IsIdle hub.now.desk two.now }
        { visit_both(rt, hub, alloc, one, two, page, users) },
        &mut || visit_driver(hub, alloc, third),
    );
}

// Two threads visit a hub, and then all seats retire.
fn visit_both<R: Threads + Sync>(
    rt: &R,
    hub: &Hub,
    alloc: Global,
    one: &mut Card,
    two: &mut Card,
    page: u32,
    users: &[u32],
)
    requires one { IsIdle hub.now.desk one.old }
    requires two { IsIdle hub.now.desk two.old }
{
    join_mut(
        rt,
        &mut || visit(hub, alloc, one, page, users),
        &mut || visit(hub, alloc, two, page, users),
    );
    visit_last(hub, alloc, one);
}

// Makes a client, likes a page with it, and parks it.
fn visit(hub: &Hub, alloc: Global, card: &mut Card, page: u32, users: &[u32])
    requires { IsIdle hub.now.desk card.old }
    ensures { IsIdle hub.now.desk card.new }
{
    if let Some(mut client) = enter(hub, alloc, card) {
        like_all(hub.service(), &mut client, page, users);
        leave(hub, card, client);
    }
}

// Makes a client, drives the service until all seats are gone, and parks the client.
fn visit_driver(hub: &Hub, alloc: Global, card: &mut Card)
    requires { IsIdle hub.now.desk card.old }
{
    if let Some(mut client) = enter(hub, alloc, card) {
        drive(hub.service(), &mut client);
        leave(hub, card, client);
    }
}

// Makes a client, retires all seats, and parks the client.
fn visit_last(hub: &Hub, alloc: Global, card: &mut Card)
    requires { IsIdle hub.now.desk card.old }
{
    if let Some(mut client) = enter(hub, alloc, card) {
        retire_all(hub.service(), &mut client);
        leave(hub, card, client);
    }
}

// A client, unless there is no memory.
fn enter(hub: &Hub, alloc: Global, card: &mut Card) -> Option<Client>
    requires { IsIdle hub.now.desk card.old }
    ensures card { IsIdle hub.now.desk card.new }
    ensures client { IfSome result (λ client. IsClient hub.now.service client) }
{
    for _ in 0..TRIES {
        match hub.new_client(alloc, card) {
            Ok(client) => return Some(client),
            Err(NoClient::Memory) => return None,
            Err(NoClient::Busy) => {}
        }
    }
    None
}

// Parks a client.
fn leave(hub: &Hub, card: &mut Card, client: Client)
    requires card { IsIdle hub.now.desk card.old }
    requires client { IsClient hub.now.service client }
    ensures { IsIdle hub.now.desk card.new }
{
    let mut out = client;
    for _ in 0..TRIES {
        match hub.park(card, out) {
            Ok(()) => return,
            Err(client) => out = client,
        }
    }
}
