// Runs the register and prints what each call answers: the guide's scenarios, document 01's edges, every refusal, a
// full register, histories in their order and the winter case. The scenarios are the texts of `data`, of which a line
// is a call in words: see `calls`, `files` and `questions`. A line is printed with its answer: `ok` and the result, or
// `no`, the number and the place. The file `stdout` holds what a register that was written apart from this one answers
// to the same calls.
#![tactic(auto)]

mod actors;
mod book;
mod calls;
mod files;
mod powers;
mod printing;
mod questions;
mod running;
mod words;

use running::run_lines;
use std::rt::Files;
use std::{fs, io};

// Runs the scenarios of a file.
fn run(rt: &(impl Files + Print + Alloc), path: &str) -> io::Result<()> {
    let text = fs::read(rt, path)?;
    run_lines(rt, text.as_slice())
}

fn main(rt: HostRuntime) -> io::Result<()> {
    actors::put_actors(&rt)?;
    for path in [
        "guide",
        "edges",
        "filing",
        "calls",
        "full",
        "records",
        "histories",
        "eve",
        "winter",
    ] {
        run(&rt, path)?;
    }
    Ok(())
}
