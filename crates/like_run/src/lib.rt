//! Runs of the like service: on threads, and replayed turn by turn as a script says.
#![tactic(auto)]

mod rounds;
mod threads;

pub use like_promises::RunFault;
pub use like_requests::{MAX_ENTRIES, MAX_INDEX, ScriptFault, Turned, read_script};
pub use rounds::{MAX_ROUNDS, ReplayFault, replay, replay_noting};
pub use threads::{run, run_limited, run_noting};
