use like_requests::Numbered;

/// A request that waits, with the submitter that it was taken from.
#[derive(Clone, Copy, PartialEq, Eq)]
pub struct Held {
    pub submitter: u32,
    pub ask: Numbered,
}
