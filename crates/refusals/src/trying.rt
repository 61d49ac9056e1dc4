// A test tried: where it is met, the call is refused.
ghost use Rattle.std.specs.Prelude.{◌≡◌, cond, Ok, Err};
ghost use Rattle.refusals.specs.Tests.{input, state};

use crate::{InputRefusal, Refusal, StateRefusal};

// Refuses where a test is met.
pub fn refuse_if<E: Drop>(met: bool, refusal: E) -> Result<(), E>
    ensures { result ≡ cond met (Err refusal) (Ok tt) }
{
    if met { Err(refusal) } else { Ok(()) }
}

// A refusal whose place isn't named.
impl From<InputRefusal> for Refusal {
    ghost from_gives = { λ f r. r ≡ input f };

    fn from(f: InputRefusal) -> Refusal {
        Refusal::Input(f, 0)
    }
}

impl From<StateRefusal> for Refusal {
    ghost from_gives = { λ f r. r ≡ state f };

    fn from(f: StateRefusal) -> Refusal {
        Refusal::State(f, 0)
    }
}
