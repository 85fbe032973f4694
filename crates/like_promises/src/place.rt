/// The place of an addition to a page: it found the count `old` and added `n`, so its stretch is the counts from `old`
/// to `old + n - 1`.
#[derive(Clone, Copy, Debug, PartialEq, Eq)]
pub struct Place {
    pub worker: u32,
    pub phase: u32,
    /// The page's count before.
    pub old: u64,
    /// How many likes were added.
    pub n: u64,
}
