//! How requests reach the workers: as a list that is opened bit by bit, or through a queue between two threads. A run
//! on threads also has here a line for each submitter, and where its threads wait.
#![tactic(auto)]

mod inbox;
mod known;
mod line;
mod lines;
mod list_inbox;
mod refused;
mod rule;
mod send_end;
mod send_pass;
mod take_end;
mod take_pass;

pub use inbox::{Inbox, TakeWith};
pub use line::{BATCH, Line};
pub use lines::{Lines, Parkers, ends_of, hear, submit, tell};
pub use list_inbox::ListInbox;
pub use refused::{EndRefused, PushRefused};
pub use send_end::SendEnd;
pub use send_pass::SendPass;
pub use take_end::TakeEnd;
pub use take_pass::TakePass;
