//! What a run leaves: one reply for each request, collected from the workers' logs, and the places of the additions to
//! each page.
#![tactic(auto)]

mod collect_fault;
mod collection;
mod page_places;

pub use collect_fault::CollectFault;
pub use collection::{collect, collect_in_parallel};
pub use page_places::places;
