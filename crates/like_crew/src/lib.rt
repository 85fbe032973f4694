//! The crew of a run: the coordinator at its board, and the workers with the inboxes of their submitters; what a crew
//! leaves when its run has ended, and the report that is made of it.
#![tactic(auto)]

mod crew;
mod ended;
mod outcome;
mod report;
mod site;

pub use crew::{CoordinatorAt, Crew, OwnCrew, OwnServer, Server};
pub use ended::Ended;
pub use outcome::Outcome;
pub use report::{report_in_parallel, report_of};
pub use site::{Seats, Site, sizes_of};
