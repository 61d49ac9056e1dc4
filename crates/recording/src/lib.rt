// What is done with the records of a register: paired, changed, added up, found and listed.
#![tactic(auto)]

pub mod adding;
pub mod changing;
pub mod dealing;
pub mod listing;
pub mod pairing;
pub mod settling;
