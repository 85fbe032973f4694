use like_requests::Verdict;

/// What a request is answered.
#[derive(Clone, Copy, Debug, PartialEq, Eq)]
pub enum Reply {
    /// The like was accepted.
    Liked,
    /// The look was accepted: the page of the user's last like, if there is one, and the count of the page.
    Seen { last: Option<u32>, count: u64 },
    /// The request was not accepted, for this reason.
    Refused(Verdict),
}
