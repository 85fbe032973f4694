//! A lock that is tried and never waited for, and a log of what each of its holders did to the value.
//!
//! Each thread has a pass, and the pass knows its log. Once all passes are back, one order of all deeds leads from the
//! first value to the last, and each pass's deeds stand in it as they stand in its log.
#![tactic(auto)]

mod deeds;
mod keeper;
mod known;
mod laws;
mod lock;
mod pass;
mod rule;

pub use deeds::{Deeds, Done};
pub use keeper::Keeper;
pub use known::Known;
pub use laws::logs_weigh_all;
pub use lock::Lock;
pub use pass::Pass;
