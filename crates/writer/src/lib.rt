// The writer of the notification file (document 01, "The notification file").
#![tactic(auto)]

pub mod checks;
pub mod placing;
pub mod step_line;
pub mod writing;
