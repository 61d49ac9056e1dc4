// The answers on standard output.
use crate::failing::Failure;
use crate::trying::write_some;
use std::io;
use std::io::{Error, ErrorKind};

// Writes all bytes, in as many writes as it takes, or says why not all were written. A write that takes nothing is the
// last.
fn write_all(rt: &HostRuntime, bytes: &[u8]) -> io::Result<()> {
    let mut rest = bytes;
    // Each turn takes as many bytes as go.
    while !rest.is_empty() {
        let n = write_some(rt, rest)?;
        if n == 0 {
            return Err(Error::from(ErrorKind::WriteZero));
        }
        rest = &rest[n..];
    }
    Ok(())
}

// Writes the answers that wait.
pub(crate) fn flush(rt: &HostRuntime, answers: &[u8]) -> Result<(), Failure> {
    match write_all(rt, answers) {
        Ok(()) => Ok(()),
        Err(error) => Err(Failure::unwritten(rt, &error)),
    }
}
