// What an answer says, in document 01's numbers: the refusal's number and place, or the result's values ("The script
// program", "Choosing the form by place").
#![tactic(auto)]

ghost use Rattle.std.specs.Prelude.{◌≡◌};
ghost use Rattle.answers.specs.Values.{said_refused, said_no, said_of, said_number, said_shown};

use ledger::{Answer, Shown};
use refusals::Refusal;

// The place of a letter among the values where none of them is one. A number and no Option: C reads it.
const NO_LETTER: u32 = 3;

// What an answer says: number and place of the refusal, 0 and 0 where there is none; how many values the result has,
// which of them is a letter (3: none), and the values, 0 past their count.
#[repr(C)]
#[derive(Clone, Copy)]
pub struct Said {
    pub number: u32,
    pub place: u32,
    pub count: u32,
    pub letter: u32,
    pub values: [u32; 3],
}

// A result without a value.
const NOTHING: Said = Said {
    number: 0,
    place: 0,
    count: 0,
    letter: NO_LETTER,
    values: [0; 3],
};

// A refusal that has a number alone: the program's own 11.
pub fn refused(number: u32) -> Said
    ensures { result ≡ said_refused number }
{
    Said { number, ..NOTHING }
}

// A refusal by its number and place.
fn no_for(refusal: Refusal) -> Said
    ensures { result ≡ said_no refusal }
{
    Said {
        number: refusals::number_of(refusal),
        place: refusals::place_of(refusal),
        ..NOTHING
    }
}

// What a call of demand 3's list answers.
pub fn of_answer(answer: Result<Answer, Refusal>) -> Said
    ensures { result ≡ said_of answer }
{
    match answer {
        Ok(Answer::Moved) => NOTHING,
        Ok(Answer::Held(n)) => of_number(Ok(n)),
        Ok(Answer::Filed(id, status, from)) => Said {
            count: 3,
            letter: 1,
            values: [id, u32::from(status), from],
            ..NOTHING
        },
        Err(refusal) => no_for(refusal),
    }
}

// What the engagement call answers, or the history call.
pub fn of_number(answer: Result<u32, Refusal>) -> Said
    ensures { result ≡ said_number answer }
{
    match answer {
        Ok(n) => Said {
            count: 1,
            values: [n, 0, 0],
            ..NOTHING
        },
        Err(refusal) => no_for(refusal),
    }
}

// What the record call answers.
pub fn of_shown(answer: Result<Shown, Refusal>) -> Said
    ensures { result ≡ said_shown answer }
{
    match answer {
        Ok(shown) => Said {
            count: 3,
            letter: 0,
            values: [u32::from(shown.status), shown.from, shown.until],
            ..NOTHING
        },
        Err(refusal) => no_for(refusal),
    }
}
