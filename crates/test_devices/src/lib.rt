//! What the tests of several crates share: a slow reader and a slow writer, which fail where they are told to.
#![tactic(auto)]

mod narrow;
mod trickle;

pub use narrow::Narrow;
pub use trickle::Trickle;
