//! Tests of a service that threads share: its hosts, and each call of a client and of a hub.
#![tactic(auto)]

#[cfg(test)]
mod scenes;
#[cfg(test)]
mod steps;
#[cfg(test)]
mod tests;
