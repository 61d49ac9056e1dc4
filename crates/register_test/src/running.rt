// A text is run line by line, and each line is printed with what its call answers.
use crate::book::{Book, fresh_book};
use crate::calls::call;
use crate::printing::{put, put_answer};
use crate::questions::ask;
use register::Head;
use std::io;

// Prints a line, and what its call answers. A title begins a scenario, with a fresh register.
fn run_line(rt: &impl Print, book: &mut Book, line: &[u8]) -> io::Result<()> {
    put(rt, line)?;
    if line.starts_with(b"#") {
        book.head = Head::fresh().head;
    }
    ask(rt, &*book, line)?;
    if let Some(answer) = call(&mut *book, line) {
        put(rt, b": ")?;
        put_answer(rt, answer)?;
    }
    put(rt, b"\n")
}

// The most lines that a text has.
const LINES: usize = 1000;

// Runs a text's lines one after another. What stands behind the last LF is no line.
pub(crate) fn run_lines(rt: &impl Print, text: &[u8]) -> io::Result<()> {
    let mut book = fresh_book();
    for line in text.split_inclusive(|b| *b == b'\n').take(LINES) {
        if let Some(line) = line.strip_suffix(b"\n") {
            run_line(rt, &mut book, line)?;
        }
    }
    Ok(())
}
