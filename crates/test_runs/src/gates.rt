//! Gates that count the calls of a run and hold some of them.
mod count;
mod ledger;
mod watch;

pub use ledger::Ledger;
pub use watch::{Held, Watch};
