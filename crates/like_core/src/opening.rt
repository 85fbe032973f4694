use crate::limits::Limits;
use std::collections::LinkedList;

/// What a core or a board was made with, as contracts see it: no value of it is made.
pub struct Opening {
    pub workers: u32,
    /// Each page's count at the start.
    pub counts: LinkedList<u64>,
    /// Whether each page is marked as split.
    pub marks: LinkedList<bool>,
    pub limits: Limits,
    /// The factor for buckets.
    pub factor: u32,
}
