// Files by their names, which may be any bytes, while std opens a file by text alone.
use std::alloc::{AllocError, Global};
use std::fs::File;
use std::{io, str};

// A name that isn't UTF-8 is asked for behind this, each byte as the character of its number. There can be no such
// file, as /dev/null is no directory, and no line names one, as a comma ends a field: c/register_script.c opens the
// file of those bytes in its place.
const MARK: &str = "/dev/null/,";

fn marked(alloc: Global, name: &[u8]) -> Result<String, AllocError> {
    let mut text = String::from_str(alloc, MARK)?;
    for byte in name {
        text.push(char::from(*byte))?;
    }
    Ok(text)
}

// Opens the file of a name for reading.
pub(crate) fn open(rt: &HostRuntime, name: &[u8]) -> io::Result<File> {
    match str::from_utf8(name) {
        Ok(text) => File::open(rt, text),
        Err(_) => File::open(rt, marked(rt.alloc(), name)?),
    }
}
