//! Hosts of a shared service. The contract of each ensures the theorem of what it did.
#![tactic(auto)]

pub mod calls;
pub mod host;
pub mod hub;
