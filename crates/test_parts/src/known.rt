use like_core::{Sight, WorkerState};

/// What is known of a post by the calls that were made on it: its state and its last sight; how many pages there are, and
/// whether the first is marked; how many likes may still be added, and how many were added to the first page.
#[derive(Clone, Copy)]
pub struct Known {
    pub state: WorkerState,
    pub last: Option<Sight>,
    pub pages: u32,
    pub is_marked: bool,
    /// The last phase whose mask was read, if the first page was the only hot one by it.
    pub hot_in: Option<u64>,
    pub room: u64,
    pub likes: u64,
}
