// A power and `;`: "A power has no sign and no needless zero."
ghost use Rattle.std.specs.Prelude.{◌≡◌, ◌+◌, ◌≤◌, length, get_or};
ghost use Rattle.reader.specs.Walking.{leading_power};

use lists::bytes::byte_at;
use lists::numbers::digit_value;

// The power and `;` that five bytes begin with, and how many bytes these are: one digit, or up to four that begin with
// no 0.
pub fn power_of(a: u8, b: u8, c: u8, d: u8, e: u8) -> Option<(u16, usize)>
    ensures { result ≡ leading_power a b c d e }
{
    let one = digit_value(a);
    if 9 < one {
        return None;
    }
    if b == b';' {
        return Some((one as u16, 2));
    }
    let next = digit_value(b);
    if 9 < next {
        return None;
    }
    if one == 0 {
        return None;
    }
    let two = one * 10 + next;
    if c == b';' {
        return Some((two as u16, 3));
    }
    let next = digit_value(c);
    if 9 < next {
        return None;
    }
    let three = two * 10 + next;
    if d == b';' {
        return Some((three as u16, 4));
    }
    let next = digit_value(d);
    if 9 < next {
        return None;
    }
    if e == b';' {
        Some(((three * 10 + next) as u16, 5))
    } else {
        None
    }
}

// The power and `;` at a place, and how many bytes these are.
pub(crate) fn power_at(s: &[u8], a: usize) -> Option<(u16, usize)>
    requires { a ≤ length s.now }
    ensures { result ≡ leading_power (get_or s.now a 0) (get_or s.now (a + 1) 0)
        (get_or s.now (a + 2) 0) (get_or s.now (a + 3) 0) (get_or s.now (a + 4) 0) }
{
    if 5 <= s.len() - a {
        return power_of(s[a], s[a + 1], s[a + 2], s[a + 3], s[a + 4]);
    }
    power_of(
        byte_at(s, a),
        byte_at(s, a + 1),
        byte_at(s, a + 2),
        byte_at(s, a + 3),
        byte_at(s, a + 4),
    )
}
