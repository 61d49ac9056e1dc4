// The reader of the notification file (document 01, "The notification file").
#![tactic(auto)]

pub mod header;
mod keys;
mod lines;
pub mod marks;
pub mod pieces;
pub mod power;
pub mod reading;
mod steps;
pub mod tally;
