//! The servers of a crew whose thread owns its board: how they are made, and how they are taken apart.
ghost use Rattle.std.specs.Prelude.{◌≡◌, [], All, IfOk, length, map};
ghost use Rattle.std.specs.List.{AllZip};
ghost use Rattle.like_requests.specs.Setup.{IsWithinLimits};
ghost use Rattle.like_board.specs.declared.own_board.OwnBoard.{OwnBoard};
ghost use Rattle.like_board.specs.NewViews.{new_views};
ghost use Rattle.like_board.specs.Own.{AreNewOwn, own_opening};
ghost use Rattle.like_board.specs.Rule.{opened_coord};
ghost use Rattle.like_promises.specs.Workload.{workload_of};
ghost use Rattle.like_crew.specs.Crew.{AreGone};
ghost use Rattle.like_crew.specs.OwnCrew.{AreSeated, IsOwnSeatOf, servers_of};
ghost use Rattle.like_crew.specs.Server.{AreUntouched, IsLogOf, plans_of};
ghost use Rattle.like_crew.specs.Servers.{AreNewServers, AreServers};
ghost use Rattle.like_crew.specs.Site.{opening_of};

use crate::crew::hands::deal;
use crate::crew::server::OwnServer;
use like_board::OwnWorkerSeat;
use like_promises::WorkerLog;
use like_queue::Inbox;
use like_requests::Setup;
use like_roles::Terms;
use std::alloc::{AllocError, Global};

/// The workers of a run on these terms at the seats of a new board, each with the inboxes of its submitters.
pub fn own_servers<I: Inbox>(
    alloc: Global,
    setup: &Setup,
    terms: Terms<'_>,
    seats: Vec<OwnWorkerSeat>,
    inboxes: Vec<I>,
) -> Result<Vec<OwnServer<I>>, AllocError>
    requires within { IsWithinLimits setup.now (plans_of (map I.view inboxes.items)) }
    requires untouched { AreUntouched (map I.view inboxes.items) }
    requires closed { All (λ inbox. I.opened inbox ≡ 0) inboxes.items }
    requires sizes { terms.sizes.now ≡ map length (plans_of (map I.view inboxes.items)) }
    requires len { length seats.items ≡ setup.now.workers }
    requires seats { (board : OwnBoard) × (own_opening board ≡ opening_of setup.now) × AreNewOwn board seats.items }
    ensures servers { IfOk result (λ owned.
        AreServers (workload_of setup.now (plans_of (map I.view inboxes.items))) setup.now.workers [] terms.entry.notes
        (servers_of owned.items)) }
    ensures new { IfOk result (λ owned.
        AreNewServers setup.now (plans_of (map I.view inboxes.items)) terms.entry (servers_of owned.items)) }
    ensures seated { IfOk result (λ owned. AreSeated (new_views (opening_of setup.now))
        (opened_coord (opening_of setup.now)) owned.items) }
{
    let mut hands = deal(alloc, inboxes, setup.workers)?;
    let mut servers = Vec::new(alloc);
    for seat in seats {
        let number = servers.len() as u32;
        let inboxes = hands.remove(0);
        let server = OwnServer::new(alloc, setup, terms, number, seat, inboxes)?;
        servers.push(server)?;
    }
    Ok(servers)
}

/// Takes apart all servers, whose workers are gone: their logs, and their seats.
pub fn finish_own<I: Inbox>(
    alloc: Global,
    servers: Vec<OwnServer<I>>,
) -> Result<(Vec<WorkerLog>, Vec<OwnWorkerSeat>), AllocError>
    requires { AreGone (servers_of servers.items) }
    ensures logs { IfOk result (λ r. AllZip IsLogOf (servers_of servers.items) r.0.items) }
    ensures seats { IfOk result (λ r. AllZip IsOwnSeatOf servers.items r.1.items) }
{
    let mut logs = Vec::new(alloc);
    let mut seats = Vec::new(alloc);
    for server in servers {
        let (log, seat) = server.finish();
        logs.push(log)?;
        seats.push(seat)?;
    }
    Ok((logs, seats))
}
