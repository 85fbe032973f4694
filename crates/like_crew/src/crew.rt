ghost use Rattle.std.specs.Prelude.{◌≡◌, ◌≤◌, All, IfOk, length, map};
ghost use Rattle.like_limits.specs.Limits.{max_requests};
ghost use Rattle.like_queue.specs.Inbox.{view_of};
ghost use Rattle.like_requests.specs.Setup.{IsWithinLimits};
ghost use Rattle.like_promises.specs.Workload.{lists_of};
ghost use Rattle.like_crew.specs.Crew.{IsCrew, IsNewCrew, crew_of};
ghost use Rattle.like_crew.specs.Server.{AreUntouched, plans_of, untouched};
ghost use Rattle.like_crew.specs.Site.{AreSeats, IsSite};

use crate::crew::new_servers::servers_of;
use crate::site::{Seats, Site};
use like_board::BoardPost;
use like_queue::{Inbox, ListInbox};
use like_requests::{Request, Setup};
use like_roles::Terms;
use std::alloc::{AllocError, Global};

mod coordinator_at;
mod hands;
mod new_servers;
mod own_crew;
mod own_servers;
mod server;
mod serving;

pub use coordinator_at::CoordinatorAt;
pub use own_crew::OwnCrew;
pub use server::{OwnServer, Server};

/// The crew of a run: the coordinator at its board, and for each worker, in order, its server, which takes from inboxes
/// of one kind.
#[derive(Drop)]
pub struct Crew<'a, I: Inbox> {
    pub coordinator: CoordinatorAt<'a>,
    pub servers: Vec<Server<BoardPost<'a>, I>>,
}

impl<'a, I: Inbox> Crew<'a, I> {
    /// The crew of a run within the limits, at a new board, with an inbox for each submitter, from which nothing was
    /// taken and of which nothing is open.
    pub fn of_inboxes(
        alloc: Global,
        setup: &Setup,
        site: &'a Site,
        seats: Seats,
        inboxes: Vec<I>,
    ) -> Result<Crew<'a, I>, AllocError>
        requires within { IsWithinLimits setup.now (plans_of (map I.view inboxes.items)) }
        requires untouched { AreUntouched (map I.view inboxes.items) }
        requires closed { All (λ inbox. I.opened inbox ≡ 0) inboxes.items }
        requires site { IsSite setup.now (plans_of (map I.view inboxes.items)) site.now }
        requires seats { AreSeats setup.now site.now seats }
        ensures crew { IfOk result
            (λ crew. IsCrew setup.now (plans_of (map I.view inboxes.items)) site.now (crew_of crew)) }
        ensures new { IfOk result
            (λ crew. IsNewCrew setup.now (plans_of (map I.view inboxes.items)) (crew_of crew)) }
    {
        let Seats { coord, workers } = seats;
        let terms = Terms {
            sizes: &site.sizes,
            notes: site.notes,
        };
        let servers = servers_of(alloc, setup, terms, &site.board, workers, inboxes)?;
        let coordinator = CoordinatorAt::new(
            alloc,
            &site.board,
            coord,
            setup.turns,
            setup.hot,
            &site.counts,
        )?;
        Ok(Crew {
            coordinator,
            servers,
        })
    }
}

// The inboxes of plans, with nothing open.
fn list_inboxes(alloc: Global, plans: Vec<Vec<Request>>) -> Result<Vec<ListInbox>, AllocError>
    requires { All (λ plan. length plan.items ≤ max_requests) plans.items }
    ensures untouched { IfOk result (λ inboxes. map view_of inboxes.items
        ≡ map untouched (lists_of plans.items)) }
    ensures closed { IfOk result (λ inboxes. All (λ inbox. inbox.opened ≡ 0) inboxes.items) }
{
    let mut inboxes = Vec::new(alloc);
    for plan in plans {
        inboxes.push(ListInbox::new(plan))?;
    }
    Ok(inboxes)
}
