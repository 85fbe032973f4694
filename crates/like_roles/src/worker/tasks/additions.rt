ghost use Rattle.std.specs.Prelude.{◌≡◌, ◌<◌, ◌^◌, true, length, vec_len, vec_capacity};
ghost use Rattle.like_core.specs.WorkerState.{RunsSplit, SawEnding};
ghost use Rattle.like_tables.specs.Liked.{AreUnliked};
ghost use Rattle.like_roles.specs.worker.Ledger.{HasNoted};
ghost use Rattle.like_roles.specs.worker.Turns.{IsMerged};
ghost use Rattle.like_roles.specs.worker.Work.{IsIdle, station_at, worker_at};

use crate::worker::ledger::Ledger;
use crate::worker::tasks::Work;
use like_core::Post;
use like_promises::Added;

impl Work {
    // Adds each page's slice that is not empty to the page's count on the board, and empties it. It goes by buckets,
    // and so in page order: in a run a page has the bucket of its number.
    pub(crate) fn merge<P: Post>(&mut self, post: &mut P)
        requires idle { IsIdle (P.view post.old) self.old }
        requires split { RunsSplit (P.view post.old).state }
        requires ending { SawEnding (P.view post.old).last }
        ensures idle { IsIdle (P.view post.new) self.new }
        ensures board { P.board post.new ≡ P.board post.old }
        ensures empty { let s = station_at (P.view post.new) self.new in AreUnliked s.slice 0 (length s.slice) }
        ensures merged { IsMerged (worker_at (P.view post.old) self.old) (worker_at (P.view post.new) self.new) }
    {
        let phase = self.phase();
        let mut from = 0;
        while let Some(merged) = self.tables.merge_next(post, from) {
            self.ledger
                .note_addition(phase, merged.page, merged.old, merged.likes);
            from = merged.page + 1;
        }
    }
}

impl Ledger {
    // Notes an addition of n to a page's count, which was this before, where additions are noted.
    pub fn note_addition(&mut self, phase: u32, page: u32, old: u64, n: u64)
        requires few { vec_len self.old.ran < 2 ^ 32 }
        requires room { self.old.notes ≡ true → vec_len self.old.adds < vec_capacity self.old.adds }
        ensures { HasNoted self.old self.new phase page old n }
    {
        if self.notes {
            self.adds.push_reserved(Added {
                page,
                phase,
                at: self.ran.len() as u32,
                old,
                n,
            });
        }
    }
}
