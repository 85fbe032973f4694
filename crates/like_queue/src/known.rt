use like_requests::Request;
use std::collections::LinkedList;

/// What a pass is for.
pub enum Role {
    Unsplit,
    Sends,
    Takes,
}

/// What a pass of a line knows: the plan, and how many of its items went through this pass. No value of it is made.
pub struct Known {
    pub role: Role,
    pub plan: LinkedList<Request>,
    pub count: u64,
}
