/// A look that waits for the next joined phase.
#[derive(Clone, Copy, Debug, PartialEq, Eq)]
pub struct Asked {
    /// A number that the host chose, to recognize the look.
    pub tag: u64,
    pub user: u32,
    pub page: u32,
    /// The split phase in which it was asked.
    pub phase: u64,
}

/// A look that waited, and what it was shown.
#[derive(Clone, Copy, Debug, PartialEq, Eq)]
pub struct Found {
    pub asked: Asked,
    /// The page of the user's last like, if there is one.
    pub last: Option<u32>,
    /// The page's count.
    pub count: u64,
    /// The joined phase in which it ran.
    pub phase: u64,
}
