// The reader of the object that the machine interface sends (document 02, K3): one walk over the bytes of the request,
// which are never copied.
#![tactic(auto)]

pub mod cursor;
mod head;
mod layouts;
mod members;
mod moments;
pub mod reading;
mod runs;
mod series;
mod step;
mod tokens;
mod words;
