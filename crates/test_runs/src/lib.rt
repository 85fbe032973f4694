//! Tests of runs and replays: worked examples, with values that were worked out by hand, and drawn replays, beside the
//! tables of turns.
//!
//! What is large is dropped by a call of `drop`: a function at whose end it goes would prove once more how each of its
//! parts is dropped.
#![tactic(auto)]

#[cfg(test)]
mod asserts;
#[cfg(test)]
mod cases;
#[cfg(test)]
mod drawn;
#[cfg(test)]
mod gates;
#[cfg(test)]
mod lists;
#[cfg(test)]
mod logs;
#[cfg(test)]
mod mixed;
#[cfg(test)]
mod places;
#[cfg(test)]
mod players;
#[cfg(test)]
mod replays;
#[cfg(test)]
mod runs;
#[cfg(test)]
mod settings;
#[cfg(test)]
mod turns;
