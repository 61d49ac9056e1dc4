// The members of an object that have a value of their own: codes, the category and the two dates, each with the comma
// after it. A text and a place go as two parameters, as in `tokens`.
ghost use Rattle.std.specs.Prelude.{cond, ◌≡◌, ◌≤◌, length, MatchOption};
ghost use Rattle.notification.specs.Forms.{is_code, is_category, six_bytes};
ghost use Rattle.request.specs.Moments.{moment_in};
ghost use Rattle.request_reader.specs.Heads.{is_timely};
ghost use Rattle.request_reader.specs.Walking.{Missing, Valued, framed, value_tests};

use crate::moments::moment_of;
use crate::tokens::{Found, after_mark, is_framed, value_at};
use notification::forms::{in_bytes, is_category, is_code};
use request::Moment;

// The member of a code, from after its name on.
pub(crate) fn code_member(s: &[u8], at: usize) -> Option<Found<[u8; 16]>>
    requires { at ≤ length s.now }
    ensures { MatchOption result (Missing (value_tests is_code) s.now at)
        (λ m. Valued is_code (λ t. t) s.now at m.next m.value) }
{
    let from = value_at(s, at)?;
    if !is_framed(s, from, 16) {
        return None;
    }
    let code = &s[from + 1..from + 17];
    if !is_code(code) {
        return None;
    }
    let value = in_bytes::<16>(code);
    let next = after_mark(s, from + 18, b',')?;
    Some(Found { value, next })
}

// How many bytes a category at a place has, by where the quote after it stands.
pub(crate) fn category_length(s: &[u8], from: usize) -> usize
    requires { from ≤ length s.now }
    ensures { (result ≡ cond (framed s.now from 5) 5 6) × (result ≤ 6) }
{
    if is_framed(s, from, 5) { 5 } else { 6 }
}

// The member of the category, from after its name on.
pub(crate) fn category_member(s: &[u8], at: usize) -> Option<Found<[u8; 6]>>
    requires { at ≤ length s.now }
    ensures { MatchOption result (Missing (value_tests is_category) s.now at)
        (λ m. Valued is_category six_bytes s.now at m.next m.value) }
{
    let from = value_at(s, at)?;
    let n = category_length(s, from);
    if !is_framed(s, from, n) {
        return None;
    }
    let end = from + n + 1;
    let category = &s[from + 1..end];
    if !is_category(category) {
        return None;
    }
    let value = in_bytes::<6>(category);
    let next = after_mark(s, end + 1, b',')?;
    Some(Found { value, next })
}

// The member of a date, from after its name on, whose time is at most a second of the day.
pub(crate) fn moment_member(s: &[u8], at: usize, latest: u32) -> Option<Found<Moment>>
    requires { at ≤ length s.now }
    ensures { MatchOption result (Missing (value_tests (is_timely latest)) s.now at)
        (λ m. Valued (is_timely latest) moment_in s.now at m.next m.value) }
{
    let from = value_at(s, at)?;
    if !is_framed(s, from, 20) {
        return None;
    }
    let value = moment_of(&s[from + 1..from + 21])?;
    if latest < value.second {
        return None;
    }
    let next = after_mark(s, from + 22, b',')?;
    Some(Found { value, next })
}
