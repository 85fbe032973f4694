//! A run's report as that of one thread: what one order of all steps at pages says of the workers' run lists.
#![tactic(auto)]

pub mod laws;
