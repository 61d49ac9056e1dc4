// The file that a line says: its name and its body.
use crate::powers::{noted, profile_of};
use crate::words::{first, rest, word};
use lists::bytes::byte_at;
use notification::forms::in_bytes;
use notification::{FileLengths, Notification};
use writer::writing::write_file;

// A name and a body, each with its length.
#[derive(Clone, Copy)]
pub(crate) struct File {
    name: [u8; 57],
    body: [u8; 967],
    lengths: FileLengths,
}

impl File {
    pub(crate) fn name(&self) -> &[u8] {
        first(&self.name, self.lengths.name)
    }

    pub(crate) fn body(&self) -> &[u8] {
        first(&self.body, self.lengths.body)
    }
}

// A notification as the writer writes it; one that it refuses is no file.
fn written(n: Notification) -> File {
    let mut name = [0; 57];
    let mut body = [0; 967];
    let lengths = write_file(n, &mut name, &mut body).unwrap_or(FileLengths { name: 0, body: 0 });
    File {
        name,
        body,
        lengths,
    }
}

// A body as it stands; a bar stands for LF.
fn body_of(text: &[u8]) -> [u8; 967] {
    let body: [u8; 967] = in_bytes(text);
    body.map(|b| if b == b'|' { b'\n' } else { b })
}

// `body SUBMITTER NAME BODY`: a name and a body as they stand.
fn as_it_stands(line: &[u8]) -> File {
    let name = word(line, 2);
    let body = rest(line, 3);
    File {
        name: in_bytes(name),
        body: body_of(body),
        lengths: FileLengths {
            name: name.len(),
            body: body.len(),
        },
    }
}

// `named SUBMITTER NAME CEDER ACQUIRER CATEGORY DATE POWER`: a body that was written, under another name.
fn under_another_name(line: &[u8]) -> File {
    let file = written(noted(rest(line, 3), profile_of(rest(line, 7))));
    let name = word(line, 2);
    File {
        name: in_bytes(name),
        lengths: FileLengths {
            name: name.len(),
            ..file.lengths
        },
        ..file
    }
}

// `file SUBMITTER CEDER ACQUIRER CATEGORY DATE POWER [STEP POWER]`: what the writer writes, one power at every step, or
// another from a step on. The other two are above.
pub(crate) fn file_of(line: &[u8]) -> File {
    match byte_at(line, 0) {
        b'b' => as_it_stands(line),
        b'n' => under_another_name(line),
        _ => written(noted(rest(line, 2), profile_of(rest(line, 6)))),
    }
}
