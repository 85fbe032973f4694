//! Tests of what is read and written: records, pages, requests, scripts and replies.
//!
//! What is large is dropped by a call of `drop`: a function at whose end it goes would prove once more how each of its
//! parts is dropped.
#![tactic(auto)]

#[cfg(test)]
mod files;
#[cfg(test)]
mod records;
#[cfg(test)]
mod replies;
#[cfg(test)]
mod settings;
