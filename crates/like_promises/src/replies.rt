use crate::answer::Answer;

/// The answers of all requests.
#[derive(Debug, Drop)]
pub struct Replies {
    /// By submitter, the answers of its requests in their order.
    pub rows: Vec<Vec<Answer>>,
}
