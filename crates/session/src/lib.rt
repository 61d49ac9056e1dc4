// A line of the script, answered by a register (document 01, "The script program").
#![tactic(auto)]

pub mod answering;
pub mod asking;
pub mod calling;
pub mod store;
