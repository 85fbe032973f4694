//! The roles of the like service: a worker, which takes the requests of its submitters and runs them at its post, turn
//! by turn, phase by phase; and the coordinator, which ends the phases and releases the next ones.
//!
//! Phases, slices and the stash are those of Narula, Cutler, Kohler and Morris, "Phase Reconciliation for Contended
//! In-Memory Transactions" (OSDI 2014).
#![tactic(auto)]

mod coord_turn;
mod coordinator;
mod laws;
mod terms;
mod turn;
mod worker;

pub use coord_turn::CoordTurn;
pub use coordinator::{Coordinator, CoordinatorOf, NoCoordinator, OwnCoordinator};
pub use laws::workers_are_exclusive;
pub use like_promises::{Added, Chosen, Ran, Reply, Took, WorkerLog};
pub use like_requests::{Gate, NoGate};
pub use terms::Terms;
pub use turn::Turn;
pub use worker::{NoWorker, Work, Worker};
