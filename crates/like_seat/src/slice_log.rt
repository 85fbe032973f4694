// The likes that went into a slice. They exist only in proofs.
ghost use Rattle.std.specs.Prelude.{◌≡◌, List, [], ◌∷◌, ◌++◌, length};
ghost use Rattle.std.specs.Borrow.{ftrue};
ghost use Rattle.like_seat.specs.SlicedLike.{SlicedLike, likes_code, sliced_like};

use like_core::Post;
use std::marker::Model;

/// The likes that a station counted in its slice, in order, each with how many looks came before it: so that a batch
/// can't count a like before the look that it belongs to.
#[derive(Drop)]
pub(crate) struct SliceLog {
    pub ghost likes: { List SlicedLike } by { likes_code },
}

impl Model for SliceLog {
    ghost also_owns = { λ _. ftrue };
}

// It owns nothing.
unsafe impl Send for SliceLog {}

unsafe impl Sync for SliceLog {}

impl SliceLog {
    pub fn new() -> SliceLog
        ensures { result.likes ≡ [] }
    {
        SliceLog {}
    }

    // With one more, of a station at this post.
    #[inline(always)]
    pub fn then<P: Post>(&self, _post: &P, _page: u32) -> SliceLog
        ensures { result.likes ≡ self.now.likes
            ++ sliced_like _page (length (P.view _post.now).looks) ∷ [] }
    {
        SliceLog {}
    }
}
