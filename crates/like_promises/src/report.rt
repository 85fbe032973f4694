use crate::chosen::Chosen;
use crate::log::WorkerLog;
use crate::place::Place;
use crate::replies::Replies;

/// What a run reports.
#[derive(Drop)]
pub struct Report {
    /// What each worker has done.
    pub logs: Vec<WorkerLog>,
    pub replies: Replies,
    /// The final count of each page.
    pub counts: Vec<u64>,
    /// The page of each user's last like, if there is one.
    pub last: Vec<Option<u32>>,
    /// The number of the last phase, in which the run ended; the first phase is 0.
    pub phases: u32,
    /// The phases with hot pages, in order, each with its mask.
    pub hot: Vec<Chosen>,
    /// By page, the places of the additions to it, by rising counts before.
    pub places: Vec<Vec<Place>>,
}
