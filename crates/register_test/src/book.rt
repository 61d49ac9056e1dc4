// A register with its columns. It is the script's `Store` again: this program tests the register alone and stands on no
// crate of the script.
use register::Head;

#[derive(Drop)]
pub(crate) struct Book {
    pub head: Head,
    pub statuses: [u8; 256],
    pub ids: [u32; 256],
    pub keys: [u32; 256],
    pub marks: [[u8; 4]; 256],
    pub rows: [[u16; 50]; 256],
    pub numbers: [u32; 64],
    pub approved: [u16; 64],
    pub loads: [[u16; 50]; 64],
}

// A fresh one. What the columns hold at first means nothing.
pub(crate) fn fresh_book() -> Book {
    Book {
        head: Head::fresh().head,
        statuses: [7; 256],
        ids: [7; 256],
        keys: [7; 256],
        marks: [[7; 4]; 256],
        rows: [[7; 50]; 256],
        numbers: [7; 64],
        approved: [7; 64],
        loads: [[7; 50]; 64],
    }
}
