// Calls of the system that are made again where they were only put off. A proved loop has to end, and nothing says that
// a call goes through: so the turns are counted, up to a number that no run uses up. Reading and writing have a loop
// each: of a closure that calls one or the other, no contract could say that its count lies in the buffer that it
// holds.
ghost use Rattle.std.specs.Io.{ReadsAtMost, WritesAtMost};

use crate::pausing::pause;
use std::io;
use std::io::{Error, ErrorKind, Read, Write};

// Whether a call that failed is to be made again: at once where a signal interrupted it, after a moment where it would
// have had to wait.
fn again(rt: &HostRuntime, error: &Error) -> bool {
    match error.kind() {
        ErrorKind::Interrupted => true,
        ErrorKind::WouldBlock => {
            pause(rt);
            true
        }
        _ => false,
    }
}

// Reads once: how many bytes came, 0 at the end, or why the read failed.
pub(crate) fn read_some<R: Read>(
    rt: &HostRuntime,
    from: &mut R,
    buf: &mut [u8],
) -> io::Result<usize>
    ensures { ReadsAtMost result buf.new }
{
    for _ in 0..u64::MAX {
        match from.read(buf) {
            Ok(n) => return Ok(n),
            Err(error) => {
                if !again(rt, &error) {
                    return Err(error);
                }
            }
        }
    }
    Err(Error::from(ErrorKind::TimedOut))
}

// Writes once to standard output: how many bytes went, or why the write failed.
pub(crate) fn write_some(rt: &HostRuntime, buf: &[u8]) -> io::Result<usize>
    ensures { WritesAtMost result buf.now }
{
    for _ in 0..u64::MAX {
        match rt.stdout().write(buf) {
            Ok(n) => return Ok(n),
            Err(error) => {
                if !again(rt, &error) {
                    return Err(error);
                }
            }
        }
    }
    Err(Error::from(ErrorKind::TimedOut))
}
