// The tables of a register: actors, categories, loads and records.
#![tactic(auto)]

pub mod actors;
pub mod categories;
pub mod comparing;
pub mod loads;
pub mod markets;
pub mod newest;
pub mod records;
