// What calls of the register answer. The ledger of document 01 is in specs/, what holds of every list of calls in
// proofs/.
#![tactic(auto)]

use notification::Notification;

// An actor: its code and its contract, from a first to a last day, both included.
#[repr(C)]
#[derive(Clone, Copy)]
pub struct Actor {
    pub code: [u8; 16],
    pub first: u32,
    pub last: u32,
}

// The entry that a filing comes through: the one of document 01, which looks seven days ahead.
#[derive(Clone, Copy)]
pub enum Entry {
    SevenDays,
}

// What an accepted call of demand 3's list answers.
#[derive(Clone, Copy)]
pub enum Answer {
    // The clock moved.
    Moved,
    // How many actors, categories or loads there now are.
    Held(u32),
    // The id, the status and the from-step of the record that a filing made.
    Filed(u32, u8, u32),
}

// What the record call answers where it is accepted: the whole record.
#[derive(Clone, Copy)]
pub struct Shown {
    pub submitter: [u8; 16],
    pub notification: Notification,
    pub status: u8,
    pub from: u32,
    pub until: u32,
}
