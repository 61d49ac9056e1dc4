// A step of an object: its two labels, held against those of its place in the day, and its power. A text and a place
// go as two parameters, as in `tokens`.
ghost use Rattle.std.specs.Prelude.{true, false, ◌&&◌, ◌≡◌, [], ◌∷◌, ◌++◌, ◌-◌, ◌≤◌};
ghost use Rattle.std.specs.Prelude.{length, get_or, take, drop, MatchOption};
ghost use Rattle.lists.specs.Searches.{every, same};
ghost use Rattle.notification.specs.Forms.{is_digit};
ghost use Rattle.request.specs.Tokens.{is_blank, quoted_by};
ghost use Rattle.request.specs.Reading.{is_label_byte};
ghost use Rattle.request_reader.specs.Walking.{Missing, WalkSays, between, framed, is_quoted};
ghost use Rattle.request_reader.specs.Steps.{LabelAt, PowerAt, StepAt, front_tests, label_tests};
ghost use Rattle.request_reader.specs.Steps.{power_of, power_tests, said_of};

use crate::tokens::{Found, after_mark, is_framed, run_to, value_from};
use crate::words::same_text;
use lists::bytes::byte_at;
use notification::forms::is_digit;
use reader::power::power_of;
use reader::tally::StepFault;

// Whether a byte may stand in a label.
fn is_label_byte(b: u8) -> bool
    ensures { result ≡ is_label_byte b }
{
    (32 <= b) & !(b == b'"') & !(b == b'\\')
}

// The place after a label of any bytes that may stand in one.
fn label_end(s: &[u8], from: usize) -> Option<usize>
    requires { (from ≤ length s.now) × (is_blank (get_or s.now from 0) ≡ false) }
    ensures { WalkSays (quoted_by (every is_label_byte) ∷ []) s.now from result }
{
    if byte_at(s, from) != b'"' {
        return None;
    }
    let end = run_to(s, from + 1, is_label_byte);
    if byte_at(s, end) != b'"' {
        return None;
    }
    Some(end + 1)
}

// Whether a text stands in quotes at a place.
fn is_quoted_at(s: &[u8], from: usize, text: &[u8]) -> bool
    requires { (from ≤ length s.now) × (length text.now ≤ 20) }
    ensures { result ≡ (framed s.now from (length text.now)
        && same (between s.now from (length text.now)) text.now) }
{
    let n = text.len();
    if !is_framed(s, from, n) {
        return false;
    }
    same_text(s, from + 1, text)
}

// The member of a label, and whether it is the label wanted.
fn label_member(s: &[u8], at: usize, name: &[u8], wanted: &[u8]) -> Option<Found<bool>>
    requires { (at ≤ length s.now) × (is_quoted name.now ≡ true)
        × (every is_label_byte wanted.now ≡ true) × (length wanted.now ≤ 20) }
    ensures { MatchOption result (Missing (label_tests name.now) s.now at)
        (λ l. LabelAt name.now wanted.now s.now at l.next l.value) }
{
    let from = value_from(s, at, name)?;
    if is_quoted_at(s, from, wanted) {
        return Some(Found {
            value: true,
            next: from + wanted.len() + 2,
        });
    }
    let next = label_end(s, from)?;
    Some(Found { value: false, next })
}

// A byte of a run of digits; `;` after them, and 0 past it.
fn digit_or_end(s: &[u8], from: usize, end: usize, i: usize) -> u8
    requires { (from ≤ end) × (end ≤ length s.now) × (i ≤ 4) }
    ensures { result ≡ get_or (take (end - from) (drop from s.now) ++ 59 ∷ []) i 0 }
{
    let at = from + i;
    if at < end {
        return s[at];
    }
    if at == end {
        return b';';
    }
    0
}

// The power of a run of digits.
fn digits_power(s: &[u8], from: usize, end: usize) -> Option<(u16, usize)>
    requires { (from ≤ end) × (end ≤ length s.now) }
    ensures { result ≡ power_of (take (end - from) (drop from s.now)) }
{
    power_of(
        digit_or_end(s, from, end, 0),
        digit_or_end(s, from, end, 1),
        digit_or_end(s, from, end, 2),
        digit_or_end(s, from, end, 3),
        digit_or_end(s, from, end, 4),
    )
}

// The member of a power.
fn power_member(s: &[u8], at: usize, name: &[u8]) -> Option<Found<Option<(u16, usize)>>>
    requires { (at ≤ length s.now) × (is_quoted name.now ≡ true) }
    ensures { MatchOption result (Missing (power_tests name.now) s.now at)
        (λ p. PowerAt name.now s.now at p.next p.value) }
{
    let from = value_from(s, at, name)?;
    let end = run_to(s, from, is_digit);
    if end == from {
        return None;
    }
    Some(Found {
        value: digits_power(s, from, end),
        next: end,
    })
}

// What is said of a step by its labels and its power.
fn say(right: bool, power: Option<(u16, usize)>) -> Result<u16, StepFault>
    ensures { result ≡ said_of right power }
{
    if !right {
        return Err(StepFault::NoLabels);
    }
    match power {
        Some((v, _)) => Ok(v),
        None => Err(StepFault::NoPower),
    }
}

// A step up to its power, by the two labels that it should have.
pub(crate) fn step_at(
    s: &[u8],
    at: usize,
    from: &[u8],
    until: &[u8],
) -> Option<Found<Result<u16, StepFault>>>
    requires { (at ≤ length s.now) × (every is_label_byte from.now ≡ true) × (length from.now ≤ 20)
        × (every is_label_byte until.now ≡ true) × (length until.now ≤ 20) }
    ensures { MatchOption result (Missing front_tests s.now at)
        (λ r. StepAt from.now until.now s.now at r.next r.value) }
{
    let inner = after_mark(s, at, b'{')?;
    let first = label_member(s, inner, b"\"Debut\"", from)?;
    let next = after_mark(s, first.next, b',')?;
    let second = label_member(s, next, b"\"Fin\"", until)?;
    let last = after_mark(s, second.next, b',')?;
    let third = power_member(s, last, b"\"Puissance\"")?;
    Some(Found {
        value: say(first.value & second.value, third.value),
        next: third.next,
    })
}
