//! Why a run of a crew ends, over a model: how far a crew is, what each turn does to that, and the laws of rounds and
//! of fair schedules.
#![tactic(auto)]

pub mod laws;
