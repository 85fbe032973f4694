//! The program: what it does for the words of its command line.
#![tactic(auto)]

mod example;
mod fault;
mod named;
mod program;
mod stopwatch;

pub use example::replay_example;
pub use fault::ProgramFault;
pub use named::{replay_named, run_named};
pub use program::{serve_words, tell};
