// The reader (document 02, K3): "42 when the text is over that, or isn't such an object apart from step count, labels
// and powers, in the place of 1 to 4, with 5 to 8 following".
ghost use Rattle.std.specs.Prelude.{◌≡◌, drop};
ghost use Rattle.request.specs.Reading.{read_object};

use crate::cursor::{read, start};
use crate::head::{series_from, take_parties, take_terms};
use crate::series::take_series;
use calendar::steps_of;
use notification::{Key, Notification};
use reader::reading::outcome;
use refusals::trying::refuse_if;
use refusals::{InputRefusal, Refusal};
use request::Request;

const MOST_BYTES: usize = 8192;

// Reads an object: the request, or the first refusal of 42 and 5 to 8.
fn read_text(body: &[u8]) -> Result<Request, Refusal>
    ensures { result ≡ read_object body.now }
{
    refuse_if(body.len() > MOST_BYTES, InputRefusal::Object)?;
    let parties = take_parties(body).ok_or(InputRefusal::Object)?;
    let terms = take_terms(body, parties.at).ok_or(InputRefusal::Object)?;
    let from = series_from(body, terms.at).ok_or(InputRefusal::Object)?;
    let day = terms.day.day;
    let steps = steps_of(day);
    let mut powers = [0u16; 50];
    let tally = take_series(body, from, steps, &mut powers).ok_or(InputRefusal::Object)?;
    outcome(steps, tally, powers)?;
    let ceder = parties.ceder;
    let acquirer = parties.acquirer;
    let category = terms.category;
    let key = Key {
        ceder,
        acquirer,
        category,
        day,
    };
    let notification = Notification { key, steps, powers };
    let origin = parties.origin;
    Ok(Request {
        notification,
        origin,
        moment: terms.submitted,
    })
}

// Reads the object that stands from a place on. Nothing stands past the end.
pub(crate) fn read_from(s: &[u8], at: usize) -> Result<Request, Refusal>
    ensures { result ≡ read_object (drop at s.now) }
{
    if s.len() < at {
        return Err(Refusal::Input(InputRefusal::Object, 0));
    }
    read_text(&s[at..])
}

// Reads a body: a cursor at its beginning reads it.
pub fn read_object(body: &[u8]) -> Result<Request, Refusal>
    ensures { result ≡ read_object body.now }
{
    read(start(body))
}
