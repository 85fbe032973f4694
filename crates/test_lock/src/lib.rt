//! Tests of the lock: passes of two threads, one that is lost, and a desk at which passes are given back.
#![tactic(auto)]

#[cfg(test)]
mod adds;
#[cfg(test)]
mod desk;
#[cfg(test)]
mod threads;
