use crate::answer::LikeAnswer;

/// A like of a row: its user and its page.
#[repr(C)]
#[derive(Clone, Copy, Debug, PartialEq, Eq)]
pub struct LikePair {
    pub user: u32,
    pub page: u32,
}

/// What a row of likes is told.
#[derive(Clone, Copy, Debug, PartialEq, Eq)]
pub struct RowAnswer {
    /// How many likes were counted, from the first on.
    pub counted: usize,
    /// `Liked` if these are all. Otherwise what the next like is told: as a single one, so nothing of it was done.
    pub answer: LikeAnswer,
}
