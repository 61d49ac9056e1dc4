// Bytes compared four and eight at a time, as numbers, and a power's digits at once.
ghost use Rattle.std.specs.Prelude.{◌≡◌, ℕ, ◌+◌, ◌<◌, ◌≤◌, length, get_or};
ghost use Rattle.lists.specs.Searches.{same};
ghost use Rattle.request_reader.specs.Walking.{part, eight_at};
ghost use Rattle.request_reader.specs.Steps.{RunSays};

use lists::bytes::byte_at;
use lists::numbers::digit_value;
use reader::header::alike;
use reader::marks::four;

// Whether the same four bytes stand at a place of each text.
pub(crate) fn four_at(s: &[u8], p: usize, t: &[u8], q: usize) -> bool
    requires { (p + 4 ≤ length s.now) × (q + 4 ≤ length t.now) }
    ensures { result ≡ same (part p 4 s.now) (part q 4 t.now) }
{
    four(s, p) == four(t, q)
}

// Eight bytes as a number.
fn eight(s: &[u8], a: usize) -> u64
    requires { a + 8 ≤ length s.now }
    ensures value { result ≡ eight_at s.now a }
    ensures by_index { (i : ℕ) → get_or s.now i 0 < 256 }
{
    four(s, a) + four(s, a + 4) * 4294967296
}

// Whether the same eight bytes stand at a place of each text.
pub(crate) fn eight_at(s: &[u8], p: usize, t: &[u8], q: usize) -> bool
    requires { (p + 8 ≤ length s.now) × (q + 8 ≤ length t.now) }
    ensures { result ≡ same (part p 8 s.now) (part q 8 t.now) }
{
    eight(s, p) == eight(t, q)
}

// Whether a text stands at a place that has room for it.
#[inline(always)]
pub(crate) fn same_text(s: &[u8], at: usize, text: &[u8]) -> bool
    requires { at + length text.now ≤ length s.now }
    ensures { result
        ≡ same (part at (length text.now) s.now) text.now }
{
    let n = text.len();
    if n < 4 {
        return alike(&s[at..at + n], text);
    }
    if n < 8 {
        return four_at(s, at, text, 0) & four_at(s, at + n - 4, text, n - 4);
    }
    (0..(n - 1) / 8).all(|k| eight_at(s, at + 8 * k, text, 8 * k))
        && eight_at(s, at + n - 8, text, n - 8)
}

// Whether the same bytes, 16 to 32, stand at two places.
pub(crate) fn same_at(s: &[u8], p: usize, q: usize, n: usize) -> bool
    requires { (16 ≤ n) × (n ≤ 32) × (p + n ≤ length s.now) × (q + n ≤ length s.now) }
    ensures { result ≡ same (part p n s.now) (part q n s.now) }
{
    eight_at(s, p, s, q)
        & eight_at(s, p + 8, s, q + 8)
        & eight_at(s, p + n - 16, s, q + n - 16)
        & eight_at(s, p + n - 8, s, q + n - 8)
}

// Whether the same bytes, 16 to 24, stand at two places: `same_at`, for which a word more would be compared at each of
// two places of a step.
pub(crate) fn same_near(s: &[u8], p: usize, q: usize, n: usize) -> bool
    requires { (16 ≤ n) × (n ≤ 24) × (p + n ≤ length s.now) × (q + n ≤ length s.now) }
    ensures { result ≡ same (part p n s.now) (part q n s.now) }
{
    eight_at(s, p, s, q) & eight_at(s, p + 8, s, q + 8) & eight_at(s, p + n - 8, s, q + n - 8)
}

// The power in the run of digits at a place: one digit, or up to four that begin with no 0.
pub(crate) fn run_power(s: &[u8], a: usize) -> Option<(u16, usize)>
    requires { a + 4 ≤ length s.now }
    ensures { RunSays s.now a result }
{
    let one = digit_value(s[a]);
    if 9 < one {
        return None;
    }
    let next = digit_value(s[a + 1]);
    if 9 < next {
        return Some((one as u16, 1));
    }
    if one == 0 {
        return None;
    }
    let two = one * 10 + next;
    let next = digit_value(s[a + 2]);
    if 9 < next {
        return Some((two as u16, 2));
    }
    let three = two * 10 + next;
    let next = digit_value(s[a + 3]);
    if 9 < next {
        return Some((three as u16, 3));
    }
    if digit_value(byte_at(s, a + 4)) <= 9 {
        return None;
    }
    Some(((three * 10 + next) as u16, 4))
}
