//! What the words of the command line ask for.
#![tactic(auto)]

mod asked;
mod command;
mod fault;
mod help;
mod matches;
mod options;
mod words;

pub use asked::Asked;
pub use fault::{OUT_OF_MEMORY, ParseFault};
pub use options::Options;
pub use words::parse;
