// The fields of a line that are numbers.
ghost use Rattle.std.specs.Prelude.{◌+◌, ◌*◌, ◌≤◌, length, IfSome};
ghost use Rattle.script.specs.Fields.{fields_from};
ghost use Rattle.script.specs.Walking.{Spelt, ValueRead, NumberRead, AllCounted};

use crate::fields::field_end;
use lists::numbers::digit_value;

// The number of one to five digits without needless zeros.
pub(crate) fn number_in(s: &[u8]) -> Option<u32>
    ensures { ValueRead s.now result }
{
    let n = s.len();
    if n == 0 {
        return None;
    }
    if 5 < n {
        return None;
    }
    if (n != 1) & (s[0] == b'0') {
        return None;
    }
    let mut v: u32 = 0;
    for b in s {
        let digit = digit_value(*b);
        if 9 < digit {
            return None;
        }
        v = v * 10 + digit;
    }
    Some(v)
}

// A field that is a number or should be: which, where it is one, and where the field ends.
#[derive(Clone, Copy)]
pub(crate) struct Numeral {
    pub number: Option<u32>,
    pub end: usize,
}

// The field that starts at a place: it is searched for its comma, then read. Few fields come here, so the code for it
// stands once.
#[inline(never)]
fn parted_number(line: &[u8], from: usize) -> Numeral
    requires { from ≤ length line.now }
    ensures { NumberRead line.now from result }
{
    let end = field_end(line, from);
    Numeral {
        number: number_in(&line[from..end]),
        end,
    }
}

// The field that the digits before a place are, where a comma stands there.
fn ended_number(line: &[u8], from: usize, value: u32, end: usize) -> Option<Numeral>
    requires { Spelt line.now from value end }
    ensures { IfSome result (NumberRead line.now from) }
{
    if line[end] == b',' {
        Some(Numeral {
            number: Some(value),
            end,
        })
    } else {
        None
    }
}

// The same of the digits that start at a place, in one pass over them, where six bytes are left.
#[inline(always)]
fn near_number(line: &[u8], from: usize) -> Option<Numeral>
    requires { from ≤ length line.now }
    ensures { IfSome result (NumberRead line.now from) }
{
    if line.len() - from < 6 {
        return None;
    }
    let mut value = digit_value(line[from]);
    if 9 < value {
        return None;
    }
    if value == 0 {
        return ended_number(line, from, value, from + 1);
    }
    // By index: it is also where the number ends, at the first byte that is no digit.
    for end in from + 1..from + 5 {
        let digit = digit_value(line[end]);
        if 9 < digit {
            return ended_number(line, from, value, end);
        }
        value = value * 10 + digit;
    }
    ended_number(line, from, value, from + 5)
}

// The field that starts at a place. Inlined with the digits' pass, so that what it gives needs no memory.
#[inline(always)]
pub(crate) fn numeral_from(line: &[u8], from: usize) -> Numeral
    requires { from ≤ length line.now }
    ensures { NumberRead line.now from result }
{
    match near_number(line, from) {
        Some(near) => near,
        None => parted_number(line, from),
    }
}

// How many numbers the fields from a place on are, where each of them is one.
pub(crate) fn count_in(line: &[u8], from: usize) -> Option<usize>
    requires { from ≤ length line.now }
    ensures { AllCounted line.now from result }
{
    let n = line.len();
    let mut count: usize = 0;
    let mut at = from;
    // Each turn passes a field, of its own length.
    while at <= n {
        let numeral = numeral_from(line, at);
        numeral.number?;
        count += 1;
        at = numeral.end + 1;
    }
    Some(count)
}
