//! Tests of the parts of a run: the core, the board, the tables of a worker, the queues and the roles.
//!
//! A table or a core is dropped by a call of `drop`: a function at whose end it goes would prove once more how each of
//! its parts is dropped.
#![tactic(auto)]

#[cfg(test)]
mod asserts;
#[cfg(test)]
mod board;
// A definition of specs/Walk.antt has this type, so it is there without tests, too.
mod known;
#[cfg(test)]
mod pure_core;
#[cfg(test)]
mod queue;
#[cfg(test)]
mod roles;
#[cfg(test)]
mod tables;
