// The reader (document 01, "Refusals that come from the input"): name, body, header, then line by line.
ghost use Rattle.std.specs.Prelude.{◌≡◌};
ghost use Rattle.notification.specs.Forms.{all_zero};
ghost use Rattle.notification.specs.Reading.{read_file};
ghost use Rattle.reader.specs.Folding.{outcome_of, judgement, with_powers, header_said, concluded};

use crate::header::{NO_HEADER, OTHER_HEADER};
use crate::lines::FileTally;
use crate::pieces::FileReader;
use crate::tally::{Tally, fault_of};
use notification::{Key, Notification};
use refusals::trying::refuse_if;
use refusals::{InputRefusal, Refusal};

// Whether every power is 0: most often the first isn't.
#[tactic(auto, unfolding(notification::specs::Forms::all_zero))]
fn is_zero(powers: [u16; 50]) -> bool
    ensures { result ≡ all_zero powers }
{
    powers.iter().all(|p| *p == 0)
}

// What the lines come to: their number, the first fault, whether a power isn't 0.
#[tactic(auto, unfolding(crate::specs::Folding::outcome_of))]
pub fn outcome(steps: u32, t: Tally, powers: [u16; 50]) -> Result<(), Refusal>
    ensures { result ≡ outcome_of steps t powers }
{
    refuse_if(t.lines != steps, InputRefusal::Lines)?;
    fault_of(t)?;
    refuse_if(is_zero(powers), InputRefusal::Zeros)?;
    Ok(())
}

// The notification that the lines come to, or their refusal.
#[tactic(auto, unfolding(crate::specs::Folding::judgement))]
fn judge(key: Key, steps: u32, t: Tally, powers: [u16; 50]) -> Result<Notification, Refusal>
    ensures { result ≡ judgement key steps t powers }
{
    outcome(steps, t, powers)?;
    Ok(Notification { key, steps, powers })
}

// What the header is refused by.
#[tactic(auto, unfolding(crate::specs::Folding::header_said))]
fn header_said(found: u32) -> Result<(), Refusal>
    ensures { result ≡ header_said found }
{
    match found {
        NO_HEADER => Err(Refusal::Input(InputRefusal::Header, 1)),
        OTHER_HEADER => Err(Refusal::Input(InputRefusal::Differs, 1)),
        _ => Ok(()),
    }
}

// What a file's lines come to: the header's refusal, else what the steps come to.
#[tactic(auto, unfolding(crate::specs::Folding::concluded))]
pub(crate) fn conclude(
    key: Key,
    steps: u32,
    t: FileTally,
    powers: [u16; 50],
) -> Result<Notification, Refusal>
    ensures { result ≡ concluded key steps (with_powers t powers) }
{
    header_said(t.header)?;
    judge(key, steps, t.steps, powers)
}

// Reads a file: the notification, or the first refusal of 1 to 8. The body is one piece.
pub fn read_file(name: &[u8], body: &[u8]) -> Result<Notification, Refusal>
    ensures { result ≡ read_file name.now body.now }
{
    FileReader::begin(name).feed(body).end()
}
