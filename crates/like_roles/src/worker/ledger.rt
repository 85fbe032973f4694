mod new_ledger;

use like_promises::{Added, Ran, Took};

/// What a worker keeps beside its station, of its submitters' plans and of what it has done.
#[derive(Drop)]
pub(crate) struct Ledger {
    /// Whether it has entered phase 0.
    pub started: bool,
    /// By rank: how many requests of each submitter were not taken yet.
    pub left: Vec<u32>,
    /// By rank: whether the submitter's end mark was taken.
    pub ended: Vec<bool>,
    /// The rank at which the next submitter to try is looked for.
    pub cursor: usize,
    /// The rank of the submitter that is tried.
    pub pending: Option<usize>,
    pub taken: Vec<Took>,
    pub ran: Vec<Ran>,
    /// Whether it notes its additions.
    pub notes: bool,
    pub adds: Vec<Added>,
}
