use crate::first_pages::FirstPages;
use like_core::Limits;

/// What a board's rule is told once: how many workers there are, each page's first count and mark, the board's limits,
/// and the factor for buckets.
#[derive(Drop)]
pub struct Key {
    pub workers: u32,
    pub pages: FirstPages,
    pub limits: Limits,
    pub factor: u32,
}
