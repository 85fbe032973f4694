ghost use Rattle.std.specs.Prelude.{◌≡◌, ◌≤◌, All, IfOk, length, map};
ghost use Rattle.like_limits.specs.Limits.{max_requests};
ghost use Rattle.like_requests.specs.Setup.{IsWithinLimits};
ghost use Rattle.like_promises.specs.Workload.{lists_of};
ghost use Rattle.like_crew.specs.Site.{AreSeats, IsSite};

use like_board::{Board, CoordSeat, WorkerSeat};
use like_requests::{Request, Setup};
use std::alloc::{AllocError, Global};

/// What a run uses until its report is made.
#[derive(Drop)]
pub struct Site {
    /// How many requests each submitter has.
    pub(crate) sizes: Vec<u32>,
    /// The initial count of each page.
    pub(crate) counts: Vec<u64>,
    pub(crate) board: Board,
    /// Whether the workers note their additions.
    pub(crate) notes: bool,
}

/// The seats of a board.
#[derive(Drop)]
pub struct Seats {
    pub(crate) coord: CoordSeat,
    pub(crate) workers: Vec<WorkerSeat>,
}

impl Site {
    /// A site for a run within the limits, with the seats of its board; its workers note their additions or do not.
    pub fn new(
        alloc: Global,
        setup: &Setup,
        plans: &[Vec<Request>],
        notes: bool,
    ) -> Result<(Site, Seats), AllocError>
        requires { IsWithinLimits setup.now (lists_of plans.now) }
        ensures site { IfOk result (λ r. IsSite setup.now (lists_of plans.now) r.0) }
        ensures seats { IfOk result (λ r. AreSeats setup.now r.0 r.1) }
        ensures notes { IfOk result (λ r. r.0.notes ≡ notes) }
    {
        let sizes = sizes_of(alloc, plans)?;
        let counts = setup.pages.counts(alloc)?;
        let marks = setup.pages.marks(alloc)?;
        let (board, coord, workers) = Board::new(alloc, setup.workers, &counts, &marks)?;
        Ok((
            Site {
                sizes,
                counts,
                board,
                notes,
            },
            Seats { coord, workers },
        ))
    }
}

/// How many requests each submitter has.
pub fn sizes_of(alloc: Global, plans: &[Vec<Request>]) -> Result<Vec<u32>, AllocError>
    requires { All (λ plan. length plan.items ≤ max_requests) plans.now }
    ensures { IfOk result (λ sizes. sizes.items ≡ map (λ plan. length plan.items) plans.now) }
{
    let mut sizes = Vec::new(alloc);
    for plan in plans {
        sizes.push(plan.len() as u32)?;
    }
    Ok(sizes)
}
