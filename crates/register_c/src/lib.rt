// The face of the register for programs in C and Rust: its calls, the notification file, the object of a request and
// the calendar, with flat structs for answers. The caller holds the head and the columns: each call is handed the head
// and lent the columns that it needs.
#![tactic(auto)]

pub mod asking;
pub mod calls;
pub mod days;
pub mod files;
pub mod objects;
