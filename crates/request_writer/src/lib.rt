// The writer of a request's object (document 02, K3).
#![tactic(auto)]

mod members;
mod moments;
mod steps;
pub mod writing;
