//! What a run of the like service promises: the data of a run, and in specs/ what they have to say.
//!
//! A worker's log has what it took, ran and added; a report has all logs, and the replies, counts, last likes, hot pages
//! and places that follow from them.
#![tactic(auto)]

mod answer;
mod chosen;
mod log;
mod place;
mod replies;
mod reply;
mod report;
mod run_fault;

pub use answer::Answer;
pub use chosen::Chosen;
pub use log::{Added, Ran, Took, WorkerLog};
pub use place::Place;
pub use replies::Replies;
pub use reply::Reply;
pub use report::Report;
pub use run_fault::RunFault;
