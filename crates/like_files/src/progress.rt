/// The parts of a run or a replay of files, in their order.
#[derive(Clone, Copy, PartialEq, Eq)]
pub enum Part {
    Reading,
    Running,
    Writing,
}

/// Hears of each part as soon as it is done.
pub trait Progress {
    fn done(&mut self, part: Part);
}

/// Does nothing.
#[derive(Drop)]
pub struct NoProgress;

impl Progress for NoProgress {
    fn done(&mut self, _part: Part) {}
}
