use crate::reply::Reply;

/// The answer of one request: the phase in which it ran, whether it came out of a stash, and its reply.
#[derive(Clone, Copy, Debug, PartialEq, Eq)]
pub struct Answer {
    pub phase: u32,
    pub stashed: bool,
    pub reply: Reply,
}
