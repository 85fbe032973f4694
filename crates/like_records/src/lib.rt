//! The records of a CSV file, one at a time, the numbers in its fields, and the files that are made of both.
#![tactic(auto)]

mod fault;
mod number;
mod records;
mod rows;

pub use crate::fault::RecordsFault;
pub use crate::number::decimal;
pub use crate::records::Records;
pub use crate::rows::{FileKind, read_file};
