// The register (document 01, "The ledger"): a head that calls take and hand back, and columns that the caller lends.
#![tactic(auto)]

pub mod asking;
pub mod enrolling;
pub mod filing;
pub mod loading;
pub mod showing;
pub mod turning;
pub mod verdicts;

use calendar::Clock;
use ledger::Answer;
use refusals::Refusal;
use tables::actors::Actors;
use tables::categories::Categories;

// The head: the clock, who is enrolled, and how many loads and records there are. What there is one of for each load or
// record is lent: of a load its number, its approved power and its row of powers, of a record its status, id, key, mark
// and row of powers.
#[repr(C)]
#[derive(Clone, Copy)]
pub struct Head {
    pub clock: Clock,
    pub actors: Actors,
    pub categories: Categories,
    pub loads: u32,
    pub records: u32,
}

// A fresh register: its head, and the statuses and ids of its records. What else is lent may hold anything.
#[repr(C)]
#[derive(Clone, Copy)]
pub struct Fresh {
    pub head: Head,
    pub statuses: [u8; 256],
    pub ids: [u32; 256],
}

// The head that a call leaves, and its answer.
#[derive(Clone, Copy)]
pub struct Reply {
    pub head: Head,
    pub answer: Result<Answer, Refusal>,
}
