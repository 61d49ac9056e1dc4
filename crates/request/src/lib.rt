// The request of the machine interface (document 02, K3): a notification as the JSON object of source document 003,
// section 5.3, with its origin and the moment of its submission.
#![tactic(auto)]

pub mod labels;

use notification::Notification;

// A moment: a day and a second of it.
#[derive(Clone, Copy)]
pub struct Moment {
    pub day: u32,
    pub second: u32,
}

// What an object says: a notification, the code of the actor who submits it, and when.
#[derive(Clone, Copy)]
pub struct Request {
    pub notification: Notification,
    pub origin: [u8; 16],
    pub moment: Moment,
}
