// The files that lines name: each is read as its bytes come, and its body is not gathered.
use crate::names::open;
use crate::trying::read_some;
use notification::Notification;
use reader::pieces::FileReader;
use refusals::Refusal;
use session::calling::File;
use std::{fs, io};

// The most bytes that are asked for of a file: one more than a body may have, which tells one that is too long.
const BODY: usize = 4097;

// Reads a file to its end, or until its body is too long: each part that comes is fed to the reader, at the end an
// empty one, and then its bytes are forgotten. A read that brings few bytes is not the last.
fn read_to_end(
    rt: &HostRuntime,
    mut file: fs::File,
    name: &[u8],
    part: &mut [u8],
) -> io::Result<Result<Notification, Refusal>> {
    let mut reader = FileReader::begin(name);
    let mut done: usize = 0;
    // Each turn takes as many bytes as come.
    while done < BODY {
        let n = read_some(rt, &mut file, &mut *part)?;
        let fed = reader.feed(&part[..n]);
        reader = fed;
        if n == 0 {
            break;
        }
        done = done.saturating_add(n);
    }
    Ok(reader.end())
}

// Opens a file once and reads it; what holds it open closes it. A part of it at a time stands in the lent buffer.
pub(crate) fn read_named(rt: &HostRuntime, name: &[u8], part: &mut [u8]) -> File {
    let file = open(rt, name).ok()?;
    read_to_end(rt, file, name, part).ok()
}
