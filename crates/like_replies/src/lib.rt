//! The text of a report. `like_collection` collects the report from what a run leaves, and its calls are named here
//! too.
#![tactic(auto)]

mod extent;
mod notice;
mod output;
mod refusals;
mod report;
mod summary;
mod write_fault;

pub use extent::Extent;
pub use like_collection::{CollectFault, collect, collect_in_parallel, places};
pub use like_promises::{Answer, Place, Replies, Report};
pub use notice::Notice;
pub use output::Output;
pub use report::text::{Text, write_places, write_report};
pub use summary::Summary;
pub use write_fault::WriteFault;
