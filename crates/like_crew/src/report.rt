ghost use Rattle.std.specs.Prelude.{◌≡◌, IfOk, MatchResult, length, map};
ghost use Rattle.like_requests.specs.Setup.{IsWithinLimits};
ghost use Rattle.like_board.specs.Closed.{IsClosedBoard};
ghost use Rattle.like_board.specs.Seats.{board_id, coord_view};
ghost use Rattle.like_promises.specs.Workload.{lists_of};
ghost use Rattle.like_collection.specs.CollectFaults.{IsCollectFault};
ghost use Rattle.like_promises.specs.Collected.{IsCollected, entries_in, rows_of};
ghost use Rattle.like_promises.specs.Report.{IsReportOf};
ghost use Rattle.like_crew.specs.Crew.{IsCrew, IsCrewOf};
ghost use Rattle.like_crew.specs.Ended.{AreLeft, IsEnded};
ghost use Rattle.like_crew.specs.Outcome.{IsOutcome};
ghost use Rattle.like_crew.specs.Site.{IsSite};

use crate::ended::Ended;
use crate::outcome::Outcome;
use crate::report::gathered::{last_likes, places_of, replies_of};
use crate::site::Site;
use like_board::Board;
use like_collection::{CollectFault, collect, collect_in_parallel};
use like_promises::{Replies, Report};
use like_requests::{Request, Setup};
use like_roles::Terms;
use std::alloc::{AllocError, Global};
use std::snapshot::Snapshot;
use std::thread::Threads;

mod gathered;

/// The report of a run of these plans on these terms that has left this; it has the places of additions where the
/// workers noted them.
pub fn report_of(
    alloc: Global,
    setup: &Setup,
    plans: &Snapshot<Vec<Vec<Request>>>,
    terms: Terms<'_>,
    outcome: Outcome,
) -> Result<Report, AllocError>
    requires within { IsWithinLimits setup.now (lists_of plans.now.value.items) }
    requires sizes { terms.sizes.now ≡ map length (lists_of plans.now.value.items) }
    requires outcome { IsOutcome (IsCrewOf setup.now (lists_of plans.now.value.items) terms.notes) outcome }
    ensures report { IfOk result (IsReportOf setup.now (lists_of plans.now.value.items) terms.entry.notes) }
    ensures phases { IfOk result (λ report. report.phases ≡ outcome.phases) }
    ensures logs { IfOk result (λ report. report.logs ≡ outcome.logs) }
    ensures hot { IfOk result (λ report. report.hot ≡ outcome.chosen) }
{
    let collected = collect(alloc, terms.sizes, &outcome.logs);
    report_with(alloc, setup, plans, terms, outcome, collected)
}

/// The report of a run at a site that has ended, with the replies collected in parallel by at most `starts` further threads.
pub fn report_in_parallel<T: Threads + Sync>(
    rt: &T,
    alloc: Global,
    setup: &Setup,
    plans: &Snapshot<Vec<Vec<Request>>>,
    site: Site,
    ended: Ended,
    starts: u32,
) -> Result<Report, AllocError>
    requires within { IsWithinLimits setup.now (lists_of plans.now.value.items) }
    requires site { IsSite setup.now (lists_of plans.now.value.items) site }
    requires ended { IsEnded (IsCrew setup.now (lists_of plans.now.value.items) site) ended }
    ensures report { IfOk result (IsReportOf setup.now (lists_of plans.now.value.items) site.notes) }
    ensures phases { IfOk result (λ report. report.phases ≡ ended.phases) }
{
    let Site {
        sizes,
        counts,
        board,
        notes,
    } = site;
    let outcome = close(board, counts, ended);
    let collected = collect_in_parallel(rt, alloc, &sizes, &outcome.logs, starts);
    let terms = Terms {
        sizes: &sizes,
        notes,
    };
    report_with(alloc, setup, plans, terms, outcome, collected)
}

// The report, with what was collected from the logs.
fn report_with(
    alloc: Global,
    setup: &Setup,
    plans: &Snapshot<Vec<Vec<Request>>>,
    terms: Terms<'_>,
    outcome: Outcome,
    collected: Result<Replies, CollectFault>,
) -> Result<Report, AllocError>
    requires within { IsWithinLimits setup.now (lists_of plans.now.value.items) }
    requires sizes { terms.sizes.now ≡ map length (lists_of plans.now.value.items) }
    requires outcome { IsOutcome (IsCrewOf setup.now (lists_of plans.now.value.items) terms.notes) outcome }
    requires collected { MatchResult collected
        (λ replies. IsCollected terms.sizes.now (entries_in outcome.logs.items) (rows_of replies))
        (IsCollectFault terms.sizes.now (entries_in outcome.logs.items)) }
    ensures report { IfOk result (IsReportOf setup.now (lists_of plans.now.value.items) terms.entry.notes) }
    ensures phases { IfOk result (λ report. report.phases ≡ outcome.phases) }
    ensures logs { IfOk result (λ report. report.logs ≡ outcome.logs) }
    ensures hot { IfOk result (λ report. report.hot ≡ outcome.chosen) }
{
    let Outcome {
        logs,
        counts,
        phases,
        chosen,
    } = outcome;
    let replies = replies_of(collected)?;
    let last = last_likes(alloc, setup.users, terms.sizes.len() as u32, &logs)?;
    let places = places_of(alloc, terms.notes, setup.pages.len(), &logs)?;
    Ok(Report {
        logs,
        replies,
        counts,
        last,
        phases,
        hot: chosen,
        places,
    })
}

// Ends the board, and gives the final counts in place of the initial ones.
fn close(board: Board, initial: Vec<u64>, ended: Ended) -> Outcome
    requires left { AreLeft (board_id board) ended.coord ended.seats.items }
    requires places { length initial.items ≡ length (coord_view ended.coord).opening.counts }
    ensures logs { result.logs ≡ ended.logs }
    ensures counts { IsClosedBoard (coord_view ended.coord) ended.seats.items result.counts.items }
    ensures phases { result.phases ≡ ended.phases }
    ensures chosen { result.chosen ≡ ended.chosen }
{
    let Ended {
        logs,
        seats,
        phases,
        coord,
        chosen,
    } = ended;
    let mut counts = initial;
    board.close(coord, seats, &mut counts);
    Outcome {
        logs,
        counts,
        phases,
        chosen,
    }
}
