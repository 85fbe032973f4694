use like_queue::Parkers;
use std::sync::OnceLock;

/// What all threads of a run share.
#[derive(Drop)]
pub struct Shared<'s, R, G> {
    pub rt: &'s R,
    pub gate: &'s G,
    /// Tells each thread to go on, once all were started, or to end.
    pub start: &'s OnceLock<bool>,
    pub parkers: &'s Parkers,
}
