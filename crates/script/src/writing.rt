// The line that answers a line of the script: its number, then `ok` and the result, or `no`, the number and the place.
ghost use Rattle.std.specs.Prelude.{◌≡◌, [], ◌∷◌, ◌+◌, ◌≤◌, length, take};
ghost use Rattle.writer.specs.Placing.{Placed};
ghost use Rattle.script.specs.Lines.{comma};
ghost use Rattle.script.specs.Answers.{value_text, values_text, said_text, answer_line, answer_put, answer_end};

use crate::digits::put_number;
use answers::Said;

// The most bytes of an answer's line.
pub const LINE_ROOM: usize = 64;

// Puts a comma and two letters.
fn put_word(out: &mut [u8], at: usize, a: u8, b: u8) -> usize
    requires { at + 3 ≤ length out.old }
    ensures { Placed out.old at (comma ∷ a ∷ b ∷ []) out.new result }
{
    out[at] = b',';
    out[at + 1] = a;
    out[at + 2] = b;
    at + 3
}

// Puts a comma and a value: a number in digits, or the byte of a letter.
fn put_value(out: &mut [u8], at: usize, letter: bool, v: u32) -> usize
    requires { at + 11 ≤ length out.old }
    ensures { Placed out.old at (comma ∷ value_text letter v) out.new result × (result ≤ at + 11) }
{
    out[at] = b',';
    if letter {
        // A letter is a byte.
        out[at + 1] = (v % 256) as u8;
        return at + 2;
    }
    put_number(out, at + 1, u64::from(v))
}

// Puts the first of three values, each after a comma.
fn put_values(out: &mut [u8], at: usize, letter: u32, count: u32, values: [u32; 3]) -> usize
    requires { at + 33 ≤ length out.old }
    ensures { Placed out.old at (values_text letter 0 (take count values)) out.new result
        × (result ≤ at + 33) }
{
    // An answer's count and letter have 32 bits, as C has them.
    let given = &values[..values.len().min(count as usize)];
    let mut next = at;
    for (i, value) in given.iter().enumerate() {
        next = put_value(&mut *out, next, i == letter as usize, *value);
    }
    next
}

// Puts what comes after the line's number.
fn put_said(out: &mut [u8], at: usize, said: Said) -> usize
    requires { at + 37 ≤ length out.old }
    ensures { Placed out.old at (said_text said) out.new result × (result ≤ at + 37) }
{
    let number = said.number;
    if number == 0 {
        let values = said.values;
        let second = put_word(&mut *out, at, b'o', b'k');
        let end = put_values(&mut *out, second, said.letter, said.count, values);
        out[end] = b'\n';
        return end + 1;
    }
    let second = put_word(&mut *out, at, b'n', b'o');
    let third = put_value(&mut *out, second, false, number);
    let end = put_value(&mut *out, third, false, said.place);
    out[end] = b'\n';
    end + 1
}

// Puts the line that answers, with its LF, at a place.
fn put_answer(out: &mut [u8], at: usize, number: u64, said: Said) -> usize
    requires { at + 64 ≤ length out.old }
    ensures { Placed out.old at (answer_line number said) out.new result × (result ≤ at + 64) }
{
    let second = put_number(&mut *out, at, number);
    put_said(out, second, said)
}

// Writes the line that answers at a place of a lent buffer, the rest untouched, and gives the place after it. A buffer
// that has no 64 bytes from that place on stays as it is.
pub fn write_answer(number: u64, said: Said, out: &mut [u8], at: usize) -> usize
    ensures { (out.new ≡ answer_put out.old at number said)
        × (result ≡ answer_end out.old at number said) × (result ≤ at + 64) }
{
    if out.len() < LINE_ROOM {
        return at;
    }
    if out.len() - LINE_ROOM < at {
        return at;
    }
    put_answer(out, at, number, said)
}
