ghost use Rattle.std.specs.Prelude.{◌≡◌, ◌↔◌, IsTrue};
ghost use Rattle.like_core.specs.declared.worker_state.WorkerState.TheVariants.{Gone};
ghost use Rattle.like_seat.specs.StationView.{IsStation, likes_of, phase_at};

mod answers;
mod looks;
mod merges;
mod service;
mod waits;

pub use self::service::come_back;
use crate::tables::Tables;
use like_core::Post;
use like_tables::{BucketCounts, Counts, Users};
use std::marker::Model;

/// A worker's station: its post at a board, and what it keeps beside it.
///
/// `W` is what waits for the next joined phase. `C` has the likes of its slice, and `T` the numbers of their buckets.
#[derive(Drop)]
pub struct Station<P: Post, W: Copy, C: Counts> {
    post: P,
    tables: Tables<W, C>,
}

/// A station of a service.
pub type ServiceStation<P, W> = Station<P, W, BucketCounts>;

impl<P: Post, W: Copy, C: Counts> Model for Station<P, W, C> {
    ghost use Rattle.like_seat.specs.StationView.{StationView};

    ghost Value = { StationView W };

    ghost use Rattle.like_seat.specs.Kept.{view_of, IsKept};

    ghost view = { λ s. view_of (P.board s.post) (P.view s.post) s.tables };

    ghost invariant = { λ s. IsKept (P.view s.post) s.tables };
}

/// There is no memory for a station. The post is given back.
#[derive(Drop)]
pub struct NoStation<P: Post> {
    pub post: P,
}

impl<P: Post, W: Copy, C: Counts> Station<P, W, C> {
    /// The phase that it runs or has answered, and 0 once it is gone.
    #[inline(always)]
    pub fn phase(&self) -> u64
        ensures phase { result ≡ phase_at self.now }
        ensures station { IsStation self.now }
    {
        self.tables.phase()
    }

    /// Whether it is gone.
    #[inline(always)]
    pub fn is_gone(&self) -> bool
        ensures { IsTrue result ↔ (self.now.post.state ≡ Gone) }
    {
        self.tables.is_gone()
    }

    /// How many likes it has counted: what it has added on the board, and its slice.
    #[inline(always)]
    pub fn likes(&self) -> u64
        ensures likes { result ≡ likes_of self.now }
        ensures station { IsStation self.now }
    {
        self.tables.likes.likes()
    }

    /// Takes away the room for one like that was given, and says whether there was any.
    #[inline(always)]
    pub fn spend_room(&mut self) -> bool
        ensures same { self.new ≡ self.old }
    {
        self.tables.likes.spend()
    }

    /// Gives room for so many likes: calls that count only where there is room count so many, up to 2^56 likes in all.
    pub fn give_room(&mut self, room: u64)
        ensures same { self.new ≡ self.old }
    {
        self.tables.likes.give(room);
    }

    /// Its users, with their last likes.
    #[inline(always)]
    pub fn users(&self) -> &Users
        ensures { result.now ≡ self.now.last }
    {
        &self.tables.last
    }

    /// Gives the post back, whatever is left to do.
    pub fn leave(self) -> P
        ensures board { P.board result ≡ self.board }
        ensures post { P.view result ≡ self.post }
        ensures station { IsStation self }
    {
        let Station { post, .. } = self;
        post
    }
}
