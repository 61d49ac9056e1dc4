// A step's line: its two labels and its power, each ended by `;`, and LF. A step, the day's steps and a power go as
// numbers with their bounds: they are what a notification has.
ghost use Rattle.std.specs.Prelude.{◌≡◌, [], ◌∷◌, ◌++◌, ◌+◌, ◌%◌, ◌≤◌, ◌<◌, length, take};
ghost use Rattle.calendar.specs.Steps.{long_steps};
ghost use Rattle.notification.specs.Forms.{power_end, digits};
ghost use Rattle.notification.specs.Writing.{labels_text, power_text};
ghost use Rattle.writer.specs.Placing.{Placed, step_text};

use crate::placing::put_ended;
use calendar::texts::digit;
use calendar::{Label, labels_of};

// A power in digits: `len` of the bytes, since without a heap there is no text to give out.
#[derive(Clone, Copy)]
pub struct Digits {
    pub bytes: [u8; 4],
    pub len: usize,
}

// A power in digits, without sign or needless zero.
pub fn digits_of(p: u16) -> Digits
    requires { p < power_end }
    ensures { (take result.len result.bytes ≡ digits p) × (result.len ≡ length (digits p)) × (length result.bytes ≡ 4) }
{
    let n = u32::from(p);
    let ones = digit(n);
    if p < 10 {
        return Digits {
            bytes: [ones, 0, 0, 0],
            len: 1,
        };
    }
    let tens = digit(n / 10);
    if p < 100 {
        return Digits {
            bytes: [tens, ones, 0, 0],
            len: 2,
        };
    }
    let hundreds = digit(n / 100);
    if p < 1000 {
        return Digits {
            bytes: [hundreds, tens, ones, 0],
            len: 3,
        };
    }
    Digits {
        bytes: [digit(n / 1000), hundreds, tens, ones],
        len: 4,
    }
}

// How long a step's line is, with its LF.
pub(crate) fn line_length(steps: u32, step: u32, p: u16) -> usize
    requires { (step < steps) × (steps ≤ long_steps) × (p < power_end) }
    ensures { result ≡ length (step_text steps step p) }
{
    let labels = labels_of(steps, step);
    let power = digits_of(p);
    labels.from.len as usize + labels.until.len as usize + power.len + 4
}

// Puts a label and `;`.
fn put_label(buffer: &mut [u8], at: usize, label: Label) -> usize
    requires { (at + label.len < length buffer.old) × (label.len ≤ length label.bytes) }
    ensures { Placed buffer.old at (take label.len label.bytes ++ 59 ∷ [])
        buffer.new result }
{
    put_ended(buffer, at, &label.bytes[..label.len as usize], b';')
}

// Puts a step's two labels.
fn put_labels(buffer: &mut [u8], at: usize, steps: u32, step: u32) -> usize
    requires { (step < steps) × (steps ≤ long_steps) × (at + length (labels_text steps step) ≤ length buffer.old) }
    ensures { Placed buffer.old at (labels_text steps step) buffer.new result }
{
    let labels = labels_of(steps, step);
    let next = put_label(buffer, at, labels.from);
    put_label(buffer, next, labels.until)
}

// Puts a power and `;`.
fn put_power(buffer: &mut [u8], at: usize, p: u16) -> usize
    requires { (p < power_end) × (at + length (power_text p) ≤ length buffer.old) }
    ensures { Placed buffer.old at (power_text p) buffer.new result }
{
    let power = digits_of(p);
    put_ended(buffer, at, &power.bytes[..power.len], b';')
}

// Puts a step's line.
pub(crate) fn put_line(buffer: &mut [u8], at: usize, steps: u32, step: u32, p: u16) -> usize
    requires { (step < steps) × (steps ≤ long_steps) × (p < power_end)
        × (at + length (step_text steps step p) ≤ length buffer.old) }
    ensures { Placed buffer.old at (step_text steps step p) buffer.new result }
{
    let second = put_labels(buffer, at, steps, step);
    let end = put_power(buffer, second, p);
    buffer[end] = b'\n';
    end + 1
}
