//! A post at which a worker's tries to come back fail at first, as if another step changed the phase word each time.
use like_core::{Post, Returns, Sight};

/// A post with the tries that fail.
#[derive(Drop)]
pub struct Missing<P: Post> {
    pub post: P,
    pub misses: u32,
}

impl<P: Post> Post for Missing<P> {
    ghost view = { λ m. P.view m.post };

    ghost board = { λ m. P.board m.post };

    fn look(&mut self) -> Sight {
        self.post.look()
    }

    fn acknowledge(&mut self) {
        self.post.acknowledge();
    }

    fn report(&mut self) {
        self.post.report();
    }

    fn retire(&mut self) {
        self.post.retire();
    }

    fn add(&mut self, page: u32, n: u64) -> u64 {
        self.post.add(page, n)
    }

    fn read(&mut self, page: u32) -> u64 {
        self.post.read(page)
    }

    fn hot(&mut self) -> u64 {
        self.post.hot()
    }
}

impl<P: Returns> Returns for Missing<P> {
    fn come_back(&mut self) -> Option<u64> {
        if self.misses > 0 {
            self.misses -= 1;
            return None;
        }
        self.post.come_back()
    }
}
