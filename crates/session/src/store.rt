// A register with its columns, which the script program holds.
ghost use Rattle.std.specs.Prelude.{◌≡◌};
ghost use Rattle.answers.specs.Values.{said_of};

use answers::{Said, of_answer};
use register::{Head, Reply};

// A register: its head, and the columns that it is lent, of its records and of its loads.
#[derive(Drop)]
pub struct Store {
    pub head: Head,
    pub statuses: [u8; 256],
    pub ids: [u32; 256],
    pub keys: [u32; 256],
    pub marks: [[u8; 4]; 256],
    pub rows: [[u16; 50]; 256],
    pub numbers: [u32; 64],
    pub approved: [u16; 64],
    pub loads: [[u16; 50]; 64],
}

impl Store {
    // Takes the head that a call leaves, and says what the call answers.
    pub(crate) fn settle(&mut self, reply: Reply) -> Said
        ensures { (self.new ≡ record self.old { head = reply.head }) × (result ≡ said_of reply.answer) }
    {
        self.head = reply.head;
        of_answer(reply.answer)
    }
}
