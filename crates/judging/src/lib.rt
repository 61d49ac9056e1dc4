// Judging a filing at its counted steps.
#![tactic(auto)]

pub mod nets;
pub mod passing;
pub mod steps;
