/// Why an event may not happen now: the first of these that applies.
#[derive(Clone, Copy, PartialEq, Eq)]
pub enum NotNow {
    /// There is no such worker or page, or no page for a bit of the mask.
    NoSuch,
    /// The worker's state, the kind of the phase or the unmerged likes do not allow it.
    Phase,
    /// The end of the last phase is never announced.
    Last,
    /// The page's total is the largest that a count can be, 9,223,372,036,854,775,807.
    Full,
}

/// The first event of a list that may not happen.
#[derive(Clone, Copy, PartialEq, Eq)]
pub struct Wrong {
    /// Its place in the list, from 0.
    pub index: usize,
    pub reason: NotNow,
}
