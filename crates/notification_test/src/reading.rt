// What the reader answers to a file, and to a file with a piece replaced.
use crate::cuts::is_alike;
use crate::pieces::replaced;
use crate::printing::{put_notification, put_refusal, sum_of};
use std::io;

// A file as it is, and whether the same is read of its body in pieces.
pub(crate) fn file(rt: &impl Print, title: &str, name: &[u8], body: &[u8]) -> io::Result<()> {
    print!(rt; "{title}: ")?;
    let reading = reader::reading::read_file(name, body);
    match reading {
        Ok(n) => put_notification(rt, n)?,
        Err(r) => put_refusal(rt, r)?,
    }
    if is_alike(name, body, sum_of(reading)) {
        println!(rt; ", however it is cut")
    } else {
        println!(rt; ", otherwise where it is cut")
    }
}

// A file whose name has a piece in the place of a part.
pub(crate) fn other_name(
    rt: &impl Print,
    title: &str,
    name: &[u8],
    body: &[u8],
    from: usize,
    until: usize,
    piece: &[u8],
) -> io::Result<()> {
    let mut copy = [0u8; 4096];
    let n = replaced(&mut copy, name, from, until, piece);
    file(rt, title, &copy[..n.min(copy.len())], body)
}

// A file whose body has a piece in the place of a part.
pub(crate) fn other_body(
    rt: &impl Print,
    title: &str,
    name: &[u8],
    body: &[u8],
    from: usize,
    until: usize,
    piece: &[u8],
) -> io::Result<()> {
    let mut copy = [0u8; 65536];
    let n = replaced(&mut copy, body, from, until, piece);
    file(rt, title, name, &copy[..n.min(copy.len())])
}

// A file with another date in both name and header.
pub(crate) fn other_date(
    rt: &impl Print,
    title: &str,
    name: &[u8],
    body: &[u8],
    date: &[u8],
) -> io::Result<()> {
    let mut copy = [0u8; 4096];
    let n = replaced(&mut copy, name, 38, 46, date);
    other_body(rt, title, &copy[..n.min(copy.len())], body, 34, 42, date)
}
