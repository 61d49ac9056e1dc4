// The calls that may change a register, each by a line of a scenario.
use crate::actors::code_of;
use crate::book::Book;
use crate::files::file_of;
use crate::powers::load_of;
use crate::words::{date, first, number, word};
use ledger::Answer;
use lists::bytes::byte_at;
use refusals::Refusal;
use register::Reply;

// `actor ACTOR FIRST LAST`: enrols an actor with its contract. A text that is no letter is a code as it stands.
fn actor(book: &Book, line: &[u8]) -> Reply {
    let who = word(line, 1);
    let from = date(word(line, 2));
    let until = date(word(line, 3));
    if who.len() == 1 {
        let code = code_of(who);
        return book.head.enrol_actor(&code, from, until);
    }
    book.head.enrol_actor(who, from, until)
}

// `category CATEGORY`: enrols a category.
fn category(book: &Book, line: &[u8]) -> Reply {
    book.head.enrol_category(word(line, 1))
}

// `to DATE MINUTE`: advances the clock.
fn to(book: &Book, line: &[u8]) -> Reply {
    book.head
        .advance(date(word(line, 1)), number(word(line, 2)))
}

// `load ACTOR CATEGORY DATE APPROVED COUNT POWER [STEP POWER]`: loads as many powers as the count says.
fn load(book: &mut Book, line: &[u8]) -> Reply {
    let load = load_of(line);
    let head = book.head;
    head.load(
        &mut book.numbers,
        &mut book.approved,
        &mut book.loads,
        &load.actor,
        word(line, 2),
        load.day,
        load.approved,
        first(&load.powers, load.count),
    )
}

// `file`, `named` and `body` (see `files`): files a name and a body.
fn file(book: &mut Book, line: &[u8]) -> Reply {
    let submitter = code_of(word(line, 1));
    let file = file_of(line);
    let head = book.head;
    head.file(
        &mut book.statuses,
        &mut book.ids,
        &mut book.keys,
        &mut book.marks,
        &mut book.rows,
        &book.numbers,
        &book.approved,
        &book.loads,
        &submitter,
        file.name(),
        file.body(),
    )
}

// The call that a line's first letter says, if it is one.
fn reply(book: &mut Book, line: &[u8]) -> Option<Reply> {
    match byte_at(line, 0) {
        b'a' => Some(actor(book, line)),
        b'c' => Some(category(book, line)),
        b't' => Some(to(book, line)),
        b'l' => Some(load(book, line)),
        b'f' | b'n' | b'b' => Some(file(book, line)),
        _ => None,
    }
}

// Makes it, and gives its answer. A line that asks, tells or is a title makes none.
pub(crate) fn call(book: &mut Book, line: &[u8]) -> Option<Result<Answer, Refusal>> {
    let reply = reply(book, line)?;
    book.head = reply.head;
    Some(reply.answer)
}
