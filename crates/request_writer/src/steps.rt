// The steps of an object: each has its two labels and its power. They are added up and put one after another as the
// file's lines are by `writer`: one function for both would take the step as a closure, and be told of its length and
// of what it puts in more words than the loop has. Steps and powers go as numbers with their bounds, as there.
ghost use Rattle.std.specs.Prelude.{◌≡◌, [], ◌∷◌, ◌++◌, ◌+◌, ◌≤◌, ◌<◌, length, take};
ghost use Rattle.notification.specs.Forms.{places, power_end};
ghost use Rattle.writer.specs.Placing.{Placed, Powered, step_texts};
ghost use Rattle.request.specs.Writing.{hour_label};
ghost use Rattle.request_writer.specs.Pieces.{mark_of, power_object, marked_step};

use crate::members::put_value;
use request::labels::hour_label;
use writer::placing::put_text;
use writer::step_line::digits_of;

// How long a step is but for its labels and its power, with the byte before it.
const STEP_FRAME: usize = 35;

// What stands before a step: `[` before the first, `,` before any other.
fn mark(k: u32) -> u8
    ensures { result ≡ mark_of k }
{
    if k == 0 { b'[' } else { b',' }
}

// How long a step is, with the byte before it.
fn step_length(steps: u32, k: u32, p: u16) -> usize
    requires { (k < steps) × (steps ≤ places) × (p < power_end) }
    ensures { result ≡ length (marked_step steps k p) }
{
    let from = hour_label(steps, k);
    let until = hour_label(steps, k + 1);
    let power = digits_of(p);
    from.len as usize + until.len as usize + power.len + STEP_FRAME
}

// How long the steps are, each with the byte before it.
pub(crate) fn steps_length(steps: u32, powers: &[u16]) -> usize
    requires { Powered steps powers.now }
    ensures { result ≡ length (step_texts (marked_step steps) 0 (take steps powers.now)) }
{
    let mut sum: usize = 0;
    for k in 0..steps {
        sum += step_length(steps, k, powers[k as usize]);
    }
    sum
}

// Puts the byte before a step.
fn put_mark(buffer: &mut [u8], at: usize, k: u32) -> usize
    requires { at < length buffer.old }
    ensures { Placed buffer.old at (mark_of k ∷ []) buffer.new result }
{
    buffer[at] = mark(k);
    at + 1
}

// Puts what stands before a label, and the label.
fn put_label(buffer: &mut [u8], at: usize, lead: &[u8], steps: u32, k: u32) -> usize
    requires { (k ≤ steps) × (steps ≤ places) × (1 ≤ steps)
        × (at + length (lead.now ++ hour_label steps k) ≤ length buffer.old) }
    ensures { Placed buffer.old at (lead.now ++ hour_label steps k) buffer.new result }
{
    let label = hour_label(steps, k);
    let bytes = label.bytes;
    let len = label.len as usize;
    put_value(buffer, at, lead, &bytes[..len])
}

// Puts a power, and what ends its step.
fn put_power(buffer: &mut [u8], at: usize, p: u16) -> usize
    requires { (p < power_end) × (at + length (power_object p) ≤ length buffer.old) }
    ensures { Placed buffer.old at (power_object p) buffer.new result }
{
    let power = digits_of(p);
    let bytes = power.bytes;
    let len = power.len;
    let end = put_value(&mut *buffer, at, b"\",\"Puissance\":", &bytes[..len]);
    put_text(buffer, end, b"}")
}

// Puts a step, with the byte before it.
fn put_step(buffer: &mut [u8], at: usize, steps: u32, k: u32, p: u16) -> usize
    requires { (k < steps) × (steps ≤ places) × (p < power_end)
        × (at + length (marked_step steps k p) ≤ length buffer.old) }
    ensures { Placed buffer.old at (marked_step steps k p) buffer.new result }
{
    let first = put_mark(&mut *buffer, at, k);
    let second = put_label(&mut *buffer, first, b"{\"Debut\":\"", steps, k);
    let third = put_label(&mut *buffer, second, b"\",\"Fin\":\"", steps, k + 1);
    put_power(buffer, third, p)
}

// Puts the steps, each with the byte before it.
pub(crate) fn put_steps(buffer: &mut [u8], at: usize, steps: u32, powers: &[u16]) -> usize
    requires { Powered steps powers.now
        × (at + length (step_texts (marked_step steps) 0 (take steps powers.now)) ≤ length buffer.old) }
    ensures { Placed buffer.old at (step_texts (marked_step steps) 0 (take steps powers.now))
        buffer.new result }
{
    let mut next = at;
    for k in 0..steps {
        next = put_step(&mut *buffer, next, steps, k, powers[k as usize]);
    }
    next
}
