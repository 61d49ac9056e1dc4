// Every label of the three kinds of day, and what stands outside a day.
use crate::printing::{label_bytes, text};
use calendar::{LONG_STEPS, PLAIN_STEPS, SHORT_STEPS};
use std::io;

fn step_line(rt: &impl Print, steps: u32, step: u32) -> io::Result<()> {
    let labels = calendar::labels_of(steps, step);
    let from = text(label_bytes(&labels.from));
    let until = text(label_bytes(&labels.until));
    println!(rt; "step {step} of {steps} {from};{until}")
}

// Every step of a day, and the one after its last.
fn day_labels(rt: &impl Print, steps: u32) -> io::Result<()> {
    for step in 0..=steps {
        step_line(rt, steps, step)?;
    }
    Ok(())
}

pub(crate) fn all_labels(rt: &impl Print) -> io::Result<()> {
    day_labels(rt, SHORT_STEPS)?;
    day_labels(rt, PLAIN_STEPS)?;
    day_labels(rt, LONG_STEPS)?;
    step_line(rt, 51, 0)?;
    step_line(rt, 0, 0)?;
    step_line(rt, 4294967295, 4294967294)
}
