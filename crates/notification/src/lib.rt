// The notification file (document 01, "The notification file"): what it says, its reader and its writer.
#![tactic(auto)]

pub mod forms;

// A key: ceder, acquirer, category and day. Codes are sixteen bytes; a category without C ends with a 0.
#[derive(Clone, Copy)]
pub struct Key {
    pub ceder: [u8; 16],
    pub acquirer: [u8; 16],
    pub category: [u8; 6],
    pub day: u32,
}

// A notification: its key, how many steps it gives a power for, and the powers; 0 past those steps. No heap holds a
// list of their own length.
#[derive(Clone, Copy)]
pub struct Notification {
    pub key: Key,
    pub steps: u32,
    pub powers: [u16; 50],
}

// The lengths of a file's name and body.
#[derive(Clone, Copy)]
pub struct FileLengths {
    pub name: usize,
    pub body: usize,
}
