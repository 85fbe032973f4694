/// The likes of a page that a station added to the page's count from its slice.
#[derive(Clone, Copy, PartialEq, Eq)]
pub struct Merged {
    pub page: u32,
    /// The page's count before.
    pub old: u64,
    pub likes: u64,
}
