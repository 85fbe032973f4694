//! A worker's seat, and the lead of all workers: what each does at a board, phase by phase, apart from where requests
//! come from and what a run keeps of them.
//!
//! Each step is one call. A worker's seat looks, counts a like, reads for a look, stashes a look until the next joined
//! phase, merges its slice, and answers the end of a phase. The lead looks, announces the end of a phase, chooses the
//! hot pages of the next one, and releases it.
#![tactic(auto)]

mod laws;
mod lead;
mod like_count;
mod merged;
mod seen;
mod slice_log;
mod station;
mod tables;

pub use laws::posts_are_exclusive;
pub use lead::{Lead, LeadOf, NoLead};
pub use like_count::{MAX_LIKES, take_one};
pub use merged::Merged;
pub use seen::Seen;
pub use station::{NoStation, ServiceStation, Station, come_back};
pub use tables::Tables;
