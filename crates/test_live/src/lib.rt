//! Tests of the live core: the worked examples of a live service, a host with several threads, and the choice of hot
//! pages.
//!
//! What is large is dropped by a call of `drop`: a function at whose end it goes would prove once more how each of its
//! parts is dropped.
#![tactic(auto)]

#[cfg(test)]
mod again;
#[cfg(test)]
mod asserts;
#[cfg(test)]
mod batches;
#[cfg(test)]
mod choice;
#[cfg(test)]
mod ends;
#[cfg(test)]
mod memory;
#[cfg(test)]
mod play;
#[cfg(test)]
mod popular;
#[cfg(test)]
mod scenes;
#[cfg(test)]
mod services;
#[cfg(test)]
mod slots;
#[cfg(test)]
mod threads;
