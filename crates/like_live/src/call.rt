ghost use Rattle.std.specs.Prelude.{◌↔◌, IsTrue};
ghost use Rattle.like_live.specs.Batch.{IsPutOff};

use crate::answer::{GlanceAnswer, LikeAnswer, LookAnswer};

/// A call of a seat, as a batch has it.
#[derive(Clone, Copy, Debug, PartialEq, Eq)]
pub enum Call {
    Like { user: u32, page: u32 },
    Look { user: u32, page: u32, tag: u64 },
    Glance { user: u32, page: u32 },
}

/// The answer to a call of a batch.
#[derive(Clone, Copy, Debug, PartialEq, Eq)]
pub enum Answer {
    Like(LikeAnswer),
    Look(LookAnswer),
    Glance(GlanceAnswer),
}

impl Answer {
    /// Whether the call must be made again.
    #[inline(always)]
    pub fn is_put_off(&self) -> bool
        ensures { IsTrue result ↔ IsPutOff self.now }
    {
        match self {
            Answer::Like(answer) => answer.is_put_off(),
            Answer::Look(answer) => answer.is_put_off(),
            Answer::Glance(answer) => answer.is_put_off(),
        }
    }
}
