// Prints what the writer and the reader answer: the guide's example, with each refusal at several places, the file of a
// long day, each file also with its body in pieces, and the notifications that the writer refuses. The file `stdout`
// holds what a reader and a writer that were written apart from these answer.
#![tactic(auto)]

mod cuts;
mod days;
mod faults;
mod files;
mod pieces;
mod printing;
mod reading;
mod writing;

use files::{LONG_DAY, PLAIN_DAY, guide, long_powers, noted, sevens};
use std::io;
use writing::write_into;

// A name and a body, as they were written.
fn show(rt: &impl Print, name: &[u8], body: &[u8]) -> io::Result<()> {
    rt.write_all(name)?;
    println!(rt)?;
    rt.write_all(body)
}

fn plain_day(rt: &impl Print) -> io::Result<()> {
    let mut name = [0u8; 57];
    let mut body = [0u8; 819];
    write_into(rt, "plain day", guide(), &mut name, &mut body)?;
    show(rt, &name, &body)?;
    faults::all_cases(rt, &name, &body)
}

fn zeros(rt: &impl Print) -> io::Result<()> {
    let mut name = [0u8; 57];
    let mut body = [0u8; 771];
    write_into(
        rt,
        "sevens",
        noted(PLAIN_DAY, 48, sevens()),
        &mut name,
        &mut body,
    )?;
    pieces::zeroed(&mut body);
    days::zero_powers(rt, &name, &body)
}

fn long_day(rt: &impl Print) -> io::Result<()> {
    let mut name = [0u8; 57];
    let mut body = [0u8; 869];
    write_into(
        rt,
        "long day",
        noted(LONG_DAY, 50, long_powers()),
        &mut name,
        &mut body,
    )?;
    show(rt, &name, &body)?;
    days::long_day(rt, &name, &body)
}

fn main(rt: HostRuntime) -> io::Result<()> {
    plain_day(&rt)?;
    zeros(&rt)?;
    long_day(&rt)?;
    writing::forms(&rt)?;
    writing::ranges(&rt)?;
    writing::short_name(&rt)?;
    writing::short_body(&rt)
}
