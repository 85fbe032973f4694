//! What workers do at the counts of pages, as contracts see it. No value of these types is made.

/// What a step does at a page's count. A glance is a read of a page that is split.
pub enum PageCall {
    /// It adds this many likes.
    Add(u64),
    Read,
    Glance,
}

/// What a worker did at a page's count in one atomic step.
pub struct PageStep {
    pub worker: u32,
    pub phase: u64,
    pub page: u32,
    /// The count that it found.
    pub found: u64,
    pub call: PageCall,
}
