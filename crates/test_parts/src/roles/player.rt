ghost use Rattle.std.specs.Prelude.{◌≡◌, ◌<◌, ◌≤◌, [], IfOk, length, map, slice_index_or};
ghost use Rattle.like_limits.specs.Limits.{max_requests};
ghost use Rattle.like_requests.specs.Setup.{IsWithin, IsWithinLimits};
ghost use Rattle.like_promises.specs.Workload.{lists_of};
ghost use Rattle.like_roles.specs.worker.New.{IsNewAt, IsPostOf};
ghost use Rattle.test_parts.specs.Playing.{IsNextGiven};

use super::gates::Expecting;
use crate::asserts::assert_named;
use like_core::Post;
use like_requests::{Numbered, Request, Setup, Taken};
use like_roles::{NoWorker, Terms, Turn, Worker, WorkerLog};
use std::alloc::Global;
use std::marker::Model;
use std::process::Abort;
use std::test::Fail;

/// A worker of a run that has one submitter at most. It is given the next request of the plan each time, and then the end
/// mark.
#[derive(Drop)]
pub struct Player<'a, P: Post> {
    worker: Worker<P>,
    plan: &'a [Request],
    /// How many requests were taken.
    next: usize,
}

impl<'a, P: Post> Model for Player<'a, P> {
    ghost use Rattle.test_parts.specs.Playing.{IsPlaying};
    ghost use Rattle.like_roles.specs.worker.WorkerView.{WorkerView};

    ghost Value = { WorkerView };

    ghost view = { λ p. p.worker.worker };

    ghost invariant = { λ p. IsPlaying p.plan.now p.next p.worker.worker };
}

/// What is there for a worker that takes: the next request of the plan, and after the last one the end mark.
fn next_of(plan: &[Request], next: &mut usize) -> Taken
    requires { length plan.now ≤ max_requests }
    ensures { IsNextGiven plan.now next.old result next.new }
{
    let Some(request) = plan.get(*next) else {
        return Taken::End;
    };
    *next += 1;
    Taken::Ask(Numbered {
        number: *next as u32,
        request: *request,
    })
}

// The requests of the worker's submitter: none if it has none.
fn own_plan(plans: &[Vec<Request>], number: u32) -> &[Request]
    ensures { result.now ≡ slice_index_or (lists_of plans.now) number [] }
{
    match plans.get(number as usize) {
        Some(plan) => plan.as_slice(),
        None => &[],
    }
}

// The worker with this number in a run on these terms.
fn worker_of<P: Post>(
    alloc: Global,
    setup: &Setup,
    terms: Terms<'_>,
    number: u32,
    post: P,
) -> Result<Worker<P>, NoWorker<P>>
    requires within { IsWithin setup.now terms.sizes.now }
    requires is_worker { number < setup.now.workers }
    requires post { IsPostOf number setup.now.pages (P.view post) }
    ensures { IfOk result (IsNewAt setup.now terms.entry number (P.board post) (P.view post)) }
{
    if terms.notes {
        return Worker::new(alloc, setup, terms.sizes, number, post);
    }
    Worker::on_terms(alloc, setup, terms, number, post)
}

impl<'a, P: Post + Drop> Player<'a, P> {
    /// The worker with this number in a run on these terms, at its post.
    pub fn new(
        alloc: Global,
        setup: &Setup,
        plans: &'a [Vec<Request>],
        terms: Terms<'_>,
        number: u32,
        post: P,
    ) -> Result<Player<'a, P>, Fail>
        requires within { IsWithinLimits setup.now (lists_of plans.now) }
        requires sizes { terms.sizes.now ≡ map length (lists_of plans.now) }
        requires few { length terms.sizes.now ≤ setup.now.workers }
        requires is_worker { number < setup.now.workers }
        requires post { IsPostOf number setup.now.pages (P.view post) }
    {
        let plan = own_plan(plans, number);
        match worker_of(alloc, setup, terms, number, post) {
            Ok(worker) => Ok(Player {
                worker,
                plan,
                next: 0,
            }),
            Err(_) => Err("no memory for a worker".into()),
        }
    }

    /// Makes the worker's next turn, with the take where it tries its submitter.
    pub fn turn(&mut self, gate: &Expecting) -> Turn {
        match self.worker.turn(gate) {
            Turn::Try { .. } => {
                let taken = next_of(self.plan, &mut self.next);
                self.worker.give(gate, taken)
            }
            answer => answer,
        }
    }

    /// What the worker has done, which is gone.
    pub fn finish(self, rt: &impl Abort, gate: &Expecting) -> WorkerLog {
        let Player { mut worker, .. } = self;
        assert_named(
            rt,
            worker.turn(gate) == Turn::Retired,
            "a worker that is gone",
        );
        let (log, _) = worker.finish();
        log
    }
}
