/// A user that a worker serves, with its rank among the worker's users.
#[derive(Clone, Copy)]
pub struct Ranked {
    pub user: u32,
    pub rank: u32,
}
