/// What a look is shown.
#[derive(Clone, Copy, Debug, PartialEq, Eq)]
pub struct Seen {
    /// The page of the user's last like, if there is one.
    pub last: Option<u32>,
    /// The page's count.
    pub count: u64,
}
