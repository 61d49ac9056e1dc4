// How a step is laid out: the places of its two labels and of its power, whatever blanks stand between its tokens.
ghost use Rattle.std.specs.Prelude.{true, ◌≡◌, ◌+◌, ◌≤◌, length, IfSome};
ghost use Rattle.request_reader.specs.Steps.{FiveAt, LaidOut, OwnSays, before_from};

use crate::tokens::{after_mark, after_text, value_at};
use crate::words::{four_at, run_power};

// The places of a step's labels and of its power: the labels have five bytes of which the last is 0, and four bytes
// stand from the power on.
#[derive(Clone, Copy)]
pub struct Layout {
    pub first: usize,
    pub second: usize,
    pub power: usize,
}

// Whether a text of five bytes of which the last is 0 stands in quotes at a place.
fn is_five(s: &[u8], from: usize) -> bool
    requires { from ≤ length s.now }
    ensures { result ≡ true → FiveAt s.now from }
{
    if s.len() - from < 7 {
        return false;
    }
    (s[from] == b'"') & (s[from + 5] == b'0') & (s[from + 6] == b'"')
}

// How the step at a place is laid out.
pub(crate) fn layout_at(s: &[u8], at: usize) -> Option<Layout>
    requires { at ≤ length s.now }
    ensures laid_out { IfSome result (λ l. LaidOut before_from s.now at l) }
    ensures power_in_bounds { IfSome result (λ l. l.power + 4 ≤ length s.now) }
{
    let open = after_mark(s, at, b'{')?;
    let debut = after_text(s, open, b"\"Debut\"")?;
    let first = value_at(s, debut)?;
    if !is_five(s, first) {
        return None;
    }
    let fin_comma = after_mark(s, first + 7, b',')?;
    let fin = after_text(s, fin_comma, b"\"Fin\"")?;
    let second = value_at(s, fin)?;
    if !is_five(s, second) {
        return None;
    }
    let power_comma = after_mark(s, second + 7, b',')?;
    let puissance = after_text(s, power_comma, b"\"Puissance\"")?;
    let power = value_at(s, puissance)?;
    if s.len() - power < 4 {
        return None;
    }
    Some(Layout {
        first,
        second,
        power,
    })
}

// The power of a step that is laid out so, with two labels of a list.
pub(crate) fn own_front(s: &[u8], l: Layout, t: &[u8], i: usize) -> Option<(u16, usize)>
    requires { (l.first + 5 ≤ length s.now) × (l.second + 5 ≤ length s.now) × (l.power + 4 ≤ length s.now)
        × (i + 18 ≤ length t.now) }
    ensures { OwnSays t.now i s.now l result }
{
    if !four_at(s, l.first + 1, t, i + 4) {
        return None;
    }
    if !four_at(s, l.second + 1, t, i + 14) {
        return None;
    }
    run_power(s, l.power)
}
