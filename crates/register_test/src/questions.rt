// The read-only calls, each by a line of a scenario.
use crate::actors::code_of;
use crate::book::Book;
use crate::printing::{put, put_number, put_refusal};
use crate::words::{date, number, rest, word};
use ledger::Shown;
use lists::bytes::byte_at;
use notification::Key;
use std::io;

// The engagement of an actor, by the words for category, date and step.
fn put_engaged(rt: &impl Print, book: &Book, who: &[u8], words: &[u8]) -> io::Result<()> {
    let actor = code_of(who);
    let answer = book.head.engagement(
        &book.statuses,
        &book.keys,
        &book.marks,
        &book.rows,
        &book.numbers,
        &book.loads,
        &actor,
        word(words, 0),
        date(word(words, 1)),
        number(word(words, 2)),
    );
    put_number(rt, answer)
}

// The powers of a record, each with the step from which it stands.
fn put_powers(rt: &impl Print, powers: &[u16], steps: u32) -> io::Result<()> {
    let mut before = None;
    for (step, power) in powers.iter().take(steps as usize).enumerate() {
        if before != Some(*power) {
            print!(rt; " {step}:{power}")?;
        }
        before = Some(*power);
    }
    Ok(())
}

fn put_code(rt: &impl Print, code: &[u8]) -> io::Result<()> {
    put(rt, b" ")?;
    put(rt, code)
}

// Ceder, acquirer, category and date. A category without C ends with a 0, which isn't printed.
fn put_key(rt: &impl Print, key: Key) -> io::Result<()> {
    let date = calendar::text_of(key.day);
    put_code(rt, &key.ceder)?;
    put_code(rt, &key.acquirer)?;
    if key.category[5] == 0 {
        put_code(rt, &key.category[..5])?;
    } else {
        put_code(rt, &key.category)?;
    }
    put_code(rt, &date)
}

// A record: status, from-step, until-step, submitter, key, powers.
fn put_record(rt: &impl Print, shown: Shown) -> io::Result<()> {
    let n = shown.notification;
    print!(rt;
        "ok {} {} {}",
        char::from(shown.status),
        shown.from,
        shown.until
    )?;
    put_code(rt, &shown.submitter)?;
    put_key(rt, n.key)?;
    put_powers(rt, &n.powers, n.steps)
}

// `record ASKER ID`.
fn record(rt: &impl Print, book: &Book, line: &[u8]) -> io::Result<()> {
    let asker = code_of(word(line, 1));
    let shown = book.head.record(
        &book.statuses,
        &book.ids,
        &book.keys,
        &book.marks,
        &book.rows,
        &asker,
        number(word(line, 2)),
    );
    match shown {
        Ok(shown) => put_record(rt, shown),
        Err(r) => put_refusal(rt, r),
    }
}

// An actor's history into a buffer, and what the buffer holds afterwards.
fn put_history(rt: &impl Print, book: &Book, actor: &[u8], out: &mut [u32]) -> io::Result<()> {
    let listed = book.head.history(&book.ids, &book.keys, actor, &mut *out);
    put_number(rt, listed)?;
    put(rt, b",")?;
    for id in &*out {
        print!(rt; " {id}")?;
    }
    Ok(())
}

// `history ACTOR ROOM`: into a buffer of so many places, each of which holds 999 before.
fn history(rt: &impl Print, book: &Book, line: &[u8]) -> io::Result<()> {
    let mut out = [999; 256];
    let actor = code_of(word(line, 1));
    let room = number(word(line, 2)) as usize;
    if room <= 256 {
        put_history(rt, book, &actor, &mut out[..room])?;
    }
    Ok(())
}

// `stand ACTOR OTHER CATEGORY DATE STEP`: the engagements of two actors, and how many records there are.
fn stand(rt: &impl Print, book: &Book, line: &[u8]) -> io::Result<()> {
    put_engaged(rt, book, word(line, 1), rest(line, 3))?;
    put(rt, b", ")?;
    put_engaged(rt, book, word(line, 2), rest(line, 3))?;
    print!(rt; ", records {}", book.head.records)
}

// The read-only call that a line's first letter says, if it is one; `engagement ACTOR CATEGORY DATE STEP` is.
pub(crate) fn ask(rt: &impl Print, book: &Book, line: &[u8]) -> io::Result<()> {
    match byte_at(line, 0) {
        b'e' => {
            put(rt, b": ")?;
            put_engaged(rt, book, word(line, 1), rest(line, 2))
        }
        b'r' => {
            put(rt, b": ")?;
            record(rt, book, line)
        }
        b'h' => {
            put(rt, b": ")?;
            history(rt, book, line)
        }
        b's' => {
            put(rt, b": ")?;
            stand(rt, book, line)
        }
        _ => Ok(()),
    }
}
