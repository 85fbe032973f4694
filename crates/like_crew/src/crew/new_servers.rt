ghost use Rattle.std.specs.Prelude.{◌≡◌, All, IfOk, length, map};
ghost use Rattle.like_requests.specs.Setup.{IsWithinLimits};
ghost use Rattle.like_board.specs.Seats.{board_id, board_numbers};
ghost use Rattle.like_roles.specs.worker.New.{AreNewSeats};
ghost use Rattle.like_promises.specs.Workload.{workload_of};
ghost use Rattle.like_crew.specs.Server.{AreUntouched, plans_of};
ghost use Rattle.like_crew.specs.Servers.{AreNewServers, AreServers};

use crate::crew::hands::deal;
use crate::crew::server::Server;
use like_board::{Board, BoardPost, WorkerSeat};
use like_queue::Inbox;
use like_requests::Setup;
use like_roles::Terms;
use std::alloc::{AllocError, Global};

/// The workers of a run on these terms at their posts, each with the inboxes of its submitters.
pub fn servers_of<'a, I: Inbox>(
    alloc: Global,
    setup: &Setup,
    terms: Terms<'_>,
    board: &'a Board,
    seats: Vec<WorkerSeat>,
    inboxes: Vec<I>,
) -> Result<Vec<Server<BoardPost<'a>, I>>, AllocError>
    requires within { IsWithinLimits setup.now (plans_of (map I.view inboxes.items)) }
    requires untouched { AreUntouched (map I.view inboxes.items) }
    requires closed { All (λ inbox. I.opened inbox ≡ 0) inboxes.items }
    requires sizes { terms.sizes.now ≡ map length (plans_of (map I.view inboxes.items)) }
    requires len { length seats.items ≡ setup.now.workers }
    requires seats { AreNewSeats (board_id board.now) setup.now.pages seats.items }
    ensures servers { IfOk result (λ servers. let board_is = board_numbers (board_id board.now) in
        let workload = workload_of setup.now (plans_of (map I.view inboxes.items)) in
        AreServers workload setup.now.workers board_is terms.entry.notes servers.items) }
    ensures new { IfOk result (λ servers.
        AreNewServers setup.now (plans_of (map I.view inboxes.items)) terms.entry servers.items) }
{
    let mut hands = deal(alloc, inboxes, setup.workers)?;
    let mut servers = Vec::new(alloc);
    for seat in seats {
        let number = servers.len() as u32;
        let inboxes = hands.remove(0);
        match Server::new(alloc, setup, terms, number, seat.at(board), inboxes) {
            Ok(server) => servers.push(server)?,
            Err(_) => return Err(AllocError),
        }
    }
    Ok(servers)
}
