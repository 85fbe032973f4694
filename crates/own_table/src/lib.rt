//! A table that one thread owns: words by value, and what its seats know, under a rule.
//!
//! It is to one thread what `atomic_table` is to several. It has the same rules, the same kinds of step and the same
//! conditions on them, but plain words and steps through a `&mut`. So a step finds the words and the views that its
//! owner knows, and its clauses say what they are.
#![tactic(auto)]

mod own_seat;
mod own_table;
mod standing;

pub use own_seat::OwnSeat;
pub use own_table::OwnTable;
pub use standing::FirstViews;
