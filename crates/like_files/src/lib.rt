//! Runs and replays of files, from their texts to the text of the report.
#![tactic(auto)]

mod asked;
mod fault;
mod line;
mod opened;
mod opener;
mod plans;
mod progress;
mod replay;
mod run;
mod source;
mod standard_input;

pub use fault::DriverFault;
pub use line::WRITE_FAILED;
pub use opened::{Opened, open_files};
pub use opener::{Disk, Opener};
pub use progress::{NoProgress, Part, Progress};
pub use replay::{replay_files, replay_opened};
pub use run::{run_files, run_opened};
pub use source::Source;
pub use standard_input::names_input_twice;
