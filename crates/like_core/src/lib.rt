//! The pure core of the like service: the packed phase word, the core as a state machine over events, and `Post`,
//! a worker's place at a board.
//!
//! Phases alternate as in Narula, Cutler, Kohler and Morris, "Phase Reconciliation for Contended In-Memory
//! Transactions" (OSDI 2014): even phases are joined, odd ones split.
#![tactic(auto)]

mod event;
mod form;
mod glances;
mod hot;
pub mod laws;
mod limits;
mod log;
mod opening;
mod page_step;
mod phase_word;
mod post;
mod pure_core;
mod returns;
mod shown;
mod sight;
mod slot_post;
mod view;
mod worker_state;

pub use event::Event;
pub use form::Form;
pub use glances::Glances;
pub use hot::{HOT_PAGES, has_bit, is_hot};
pub use limits::Limits;
pub use log::{LogEntry, Logged};
pub use opening::Opening;
pub use page_step::{PageCall, PageStep};
pub use phase_word::{Kind, LAST_PHASE, PhaseWord};
pub use post::Post;
pub use pure_core::{Core, NotNow, Wrong, check_events};
pub use returns::Returns;
pub use shown::Shown;
pub use sight::{CoordSight, Sight};
pub use slot_post::SlotPost;
pub use view::{Addition, CoordSeatView, Look, PageCount, PhaseMask, View, WorkerSeatView};
pub use worker_state::WorkerState;
