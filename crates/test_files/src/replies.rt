ghost use Rattle.std.specs.Prelude.{◌≡◌};

use crate::files::list;
use like_roles::{Added, Ran, WorkerLog};
use like_tables::Users;
use std::alloc::Global;
use std::process::Abort;

mod collection;
mod notices;
mod place_rows;
mod places;
mod texts;
mod texts_in_parallel;
mod written;

// The log of a worker that ran these entries and made these additions.
fn log_of(rt: &impl Abort, alloc: Global, ran: &[Ran], adds: &[Added]) -> WorkerLog
    ensures { result.adds.items ≡ adds.now }
{
    WorkerLog {
        taken: Vec::new(alloc),
        ran: list(rt, alloc, ran),
        adds: list(rt, alloc, adds),
        last: Users::new(alloc, 0, 1, 1, 0).expect(rt, "memory"),
    }
}
