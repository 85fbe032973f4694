ghost use Rattle.std.specs.Prelude.{◌≡◌};
ghost use Rattle.like_core.specs.Post.{pages_of};
ghost use Rattle.like_core.specs.declared.view.WorkerSeatView.{WorkerSeatView};
ghost use Rattle.like_core.specs.WorkerState.{IsRunning};
ghost use Rattle.like_requests.specs.Setup.{IsThere};
ghost use Rattle.like_roles.specs.worker.Judged.{IsJudged};
ghost use Rattle.like_seat.specs.Kept.{IsKept};
ghost use Rattle.like_roles.specs.worker.WorkerView.{waits_at};

use crate::worker::tasks::RunTables;
use like_requests::{Op, PageRef, Verdict};
use like_tables::{Held, Users};

/// A judged request: what it asks for if it is accepted, and else why it is not.
#[derive(Clone, Copy)]
pub(crate) enum Judged {
    Like { user: u32, page: u32 },
    Look { user: u32, page: u32 },
    Refused(Verdict),
}

impl Judged {
    /// Judges a request that the worker of these users took.
    pub fn of(users: &Users, held: &Held) -> Judged
        ensures { IsJudged users.now.share held.now result }
    {
        let request = held.ask.request;
        let user = request.user;
        match (users.judge(held.submitter, &request), request.page) {
            (Verdict::Accepted, PageRef::Known(page)) => match request.op {
                Op::Like => Judged::Like { user, page },
                Op::Look => Judged::Look { user, page },
            },
            (verdict, _) => Judged::Refused(verdict),
        }
    }

    /// Whether it has to wait for the next joined phase: an accepted look at a page that is split in the phase that the
    /// worker runs.
    pub fn waits(&self, tables: &RunTables, held: &Held) -> bool
        requires { IsJudged tables.now.last.share held.now self.now }
        ensures { (post : WorkerSeatView) → IsKept post tables.now → IsRunning post.state
            → IsThere (pages_of post) held.now.ask.request.page
            → result ≡ waits_at post tables.now.last.share held.now.submitter held.now.ask.request }
    {
        match *self {
            Judged::Look { page, .. } => tables.is_split(page),
            _ => false,
        }
    }
}
