// The script program (document 01, "The script program"): standard input in, a line for each line out. Which lines
// there are, what they ask and what they are answered is in the crates lines, session and script; here bytes are only
// moved.
// What Rattle has no form for is in c/register_script.c, which is linked with this.
#![tactic(auto)]

ghost use Rattle.std.specs.Prelude.{◌≤◌};

mod bodies;
mod failing;
mod input;
mod names;
mod output;
mod pausing;
mod running;
mod saying;
mod trying;

use crate::running::run;
use register::Head;
use session::store::Store;
use std::process::ExitCode;

// The most bytes that are read at once.
const BLOCK: usize = 32768;

// The most bytes of answers that wait to be written: few, so that a short run touches little memory.
const WAITING: usize = 16384;

// The most bytes that are read of a file at once.
const PART: usize = 4096;

// Answers standard input to its end. 0: every answer was written; 1: the answers can't be written; 2: the input can't
// be read.
fn register_script(rt: &HostRuntime) -> u8
    ensures { result ≤ 2 }
{
    let fresh = Head::fresh();
    let statuses = fresh.statuses;
    let ids = fresh.ids;
    let mut store = Store {
        head: fresh.head,
        statuses,
        ids,
        keys: [0; 256],
        marks: [[0; 4]; 256],
        rows: [[0; 50]; 256],
        numbers: [0; 64],
        approved: [0; 64],
        loads: [[0; 50]; 64],
    };
    let mut part = [0u8; PART];
    let mut input = [0u8; BLOCK];
    let mut output = [0u8; WAITING];
    match run(rt, &mut store, &mut part, &mut input, &mut output) {
        Ok(()) => 0,
        Err(failure) => failure.status(),
    }
}

fn main(rt: HostRuntime) -> ExitCode {
    ExitCode::from(register_script(&rt))
}
