ghost use Rattle.std.specs.Prelude.{◌≡◌, ◌<◌, IsTrue};
ghost use Rattle.like_core.specs.Post.{pages_of};
ghost use Rattle.like_core.specs.WorkerState.{IsRunning};
ghost use Rattle.like_tables.specs.Share.{owns};
ghost use Rattle.like_roles.specs.worker.Ledger.{CanServe, HasRoomForOne, HasRoomToNote};
ghost use Rattle.like_roles.specs.worker.Serve.{Likes, Runs, GivesReply};
ghost use Rattle.like_roles.specs.worker.Work.{IsIdle, station_at, worker_at};

use crate::worker::judged::Judged;
use crate::worker::tasks::Work;
use like_core::Post;
use like_promises::{Ran, Reply};
use like_requests::Gate;
use like_tables::Held;

impl Work {
    // Counts an accepted like of a page, which is then the user's last, and notes its addition, if it makes one.
    fn like<P: Post>(&mut self, post: &mut P, user: u32, page: u32)
        requires idle { IsIdle (P.view post.old) self.old }
        requires room { HasRoomForOne (station_at (P.view post.old) self.old) self.old.ledger }
        requires running { IsRunning (P.view post.old).state }
        requires there { page < pages_of (P.view post.old) }
        requires owned { IsTrue (owns self.old.tables.last.share user) }
        ensures idle { IsIdle (P.view post.new) self.new }
        ensures room { HasRoomToNote (station_at (P.view post.new) self.new) self.new.ledger }
        ensures board { P.board post.new ≡ P.board post.old }
        ensures liked { Likes (worker_at (P.view post.old) self.old) user page (worker_at (P.view post.new) self.new) }
    {
        let phase = self.phase();
        if let Some(old) = self.tables.count_like(post, user, page) {
            self.ledger.note_addition(phase, page, old, 1);
        }
    }

    // Answers a judged request.
    fn serve<P: Post>(&mut self, post: &mut P, held: &Held, judged: Judged) -> Reply
        requires idle { IsIdle (P.view post.old) self.old }
        requires room { HasRoomForOne (station_at (P.view post.old) self.old) self.old.ledger }
        requires can { CanServe (station_at (P.view post.old) self.old) held.now judged }
        ensures idle { IsIdle (P.view post.new) self.new }
        ensures room { HasRoomToNote (station_at (P.view post.new) self.new) self.new.ledger }
        ensures board { P.board post.new ≡ P.board post.old }
        ensures serves { let v = worker_at (P.view post.old) self.old in let h = held.now in
            GivesReply v h.submitter h.ask.request result (worker_at (P.view post.new) self.new) }
    {
        match judged {
            Judged::Like { user, page } => {
                self.like(post, user, page);
                Reply::Liked
            }
            Judged::Look { user, page } => {
                let seen = self.tables.read_for(post, user, page);
                Reply::Seen {
                    last: seen.last,
                    count: seen.count,
                }
            }
            Judged::Refused(verdict) => Reply::Refused(verdict),
        }
    }

    // Runs a judged request, and notes it.
    pub(crate) fn run<P: Post, G: Gate>(
        &mut self,
        post: &mut P,
        gate: &G,
        held: Held,
        judged: Judged,
        stashed: bool,
    )
        requires idle { IsIdle (P.view post.old) self.old }
        requires room { HasRoomForOne (station_at (P.view post.old) self.old) self.old.ledger }
        requires can { CanServe (station_at (P.view post.old) self.old) held judged }
        ensures idle { IsIdle (P.view post.new) self.new }
        ensures board { P.board post.new ≡ P.board post.old }
        ensures ran { let v = worker_at (P.view post.old) self.old in
            Runs v held stashed (worker_at (P.view post.new) self.new) }
    {
        gate.run(
            self.tables.users().worker(),
            held.submitter,
            held.ask.number,
        );
        let reply = self.serve(post, &held, judged);
        let phase = self.phase();
        self.ledger.ran.push_reserved(Ran {
            phase,
            submitter: held.submitter,
            number: held.ask.number,
            stashed,
            reply,
        });
    }
}
