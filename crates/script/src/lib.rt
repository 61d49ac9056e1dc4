// The script program's lines (document 01, "The script program"): a line to what it asks, and an answer to a line.
#![tactic(auto)]

mod digits;
mod fields;
mod numbers;
pub mod parts;
pub mod reading;
pub mod writing;
