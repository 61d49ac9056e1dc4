// Texts and answers on standard output.
use ledger::Answer;
use refusals::{Refusal, number_of, place_of};
use std::io;

pub(crate) fn put(rt: &impl Print, text: &[u8]) -> io::Result<()> {
    rt.write_all(text)
}

// A refusal: its number and its place.
pub(crate) fn put_refusal(rt: &impl Print, r: Refusal) -> io::Result<()> {
    print!(rt; "no {} {}", number_of(r), place_of(r))
}

// What a call of demand 3's list answers.
pub(crate) fn put_answer(rt: &impl Print, answer: Result<Answer, Refusal>) -> io::Result<()> {
    match answer {
        Ok(Answer::Moved) => print!(rt; "ok"),
        Ok(Answer::Held(n)) => print!(rt; "ok {n}"),
        Ok(Answer::Filed(id, status, from)) => {
            print!(rt; "ok {id} {} {from}", char::from(status))
        }
        Err(r) => put_refusal(rt, r),
    }
}

// A power, or a number of ids.
pub(crate) fn put_number(rt: &impl Print, answer: Result<u32, Refusal>) -> io::Result<()> {
    match answer {
        Ok(n) => print!(rt; "ok {n}"),
        Err(r) => put_refusal(rt, r),
    }
}
