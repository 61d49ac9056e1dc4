// The lines of a script whose bytes come in blocks, and their answers (document 01, "The script program"). Nothing is
// read or written here.
#![tactic(auto)]

pub mod answering;
mod ends;
pub mod holding;
