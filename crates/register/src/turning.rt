// What a call of the register leaves and says.
ghost use Rattle.std.specs.Prelude.{◌≡◌};
ghost use Rattle.answers.specs.Values.{said_of};

use crate::{Head, Reply};
use answers::{Said, of_answer};

// The head that a call leaves, and what it says.
#[repr(C)]
#[derive(Clone, Copy)]
pub struct Turn {
    pub head: Head,
    pub said: Said,
}

// A reply in numbers and values.
pub fn turned(reply: Reply) -> Turn
    ensures { result ≡ record { head = reply.head; said = said_of reply.answer } }
{
    Turn {
        head: reply.head,
        said: of_answer(reply.answer),
    }
}
