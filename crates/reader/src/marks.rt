// A good line at once: its two labels as numbers, then its power, `;` and LF.
ghost use Rattle.std.specs.Prelude.{true, cond, Some, None, ◌≡◌, ℕ, ◌+◌, ◌*◌, ◌<◌, ◌≤◌, eqb, length, get_or};
ghost use Rattle.notification.specs.Forms.{places};
ghost use Rattle.reader.specs.Walking.{four_at, six_at, half_hours, Plain, TailSays, LineSays};

use calendar::{PLAIN_STEPS, turn_of};
use lists::bytes::byte_at;
use lists::numbers::digit_value;

// The half hours since midnight that a boundary is labelled with.
pub fn half_hours(steps: u32, at: u32) -> u32
    requires { (at ≤ steps) × (steps ≤ places) }
    ensures { (result ≡ half_hours steps at) × (result < 49) }
{
    if at < turn_of(steps) {
        at
    } else {
        at + PLAIN_STEPS - steps
    }
}

// The boundary up to which the labels from a boundary on go on by half hours; 0 where they don't, and no Option: a loop
// goes on as long as it is below that.
pub fn run_end(steps: u32, k: u32) -> u32
    requires { (k ≤ steps) × (steps ≤ places) }
    ensures { k < result → Plain steps k result }
{
    let t = turn_of(steps);
    let j = half_hours(steps, k);
    if t <= k {
        if j < t {
            return 0;
        }
        return steps;
    }
    if steps == PLAIN_STEPS {
        return steps;
    }
    if steps < t {
        return steps;
    }
    t - 1
}

// Four bytes as a number.
pub fn four(s: &[u8], a: usize) -> u64
    requires { a + 4 ≤ length s.now }
    ensures value { result ≡ four_at s.now a }
    ensures upper_bound { result < 4294967296 }
    ensures by_index { (i : ℕ) → get_or s.now i 0 < 256 }
{
    u64::from(u32::from_le_bytes([s[a], s[a + 1], s[a + 2], s[a + 3]]))
}

// Whether the same twelve bytes stand at a place of each text. As numbers of eight and of four bytes: `==` of the two
// slices is a call here, and takes 36 instructions more for each line of a file.
fn twelve(s: &[u8], a: usize, t: &[u8], i: usize) -> bool
    requires { (a + 12 ≤ length s.now) × (i + 12 ≤ length t.now) }
    ensures a_value { result ≡ true → (six_at s.now a ≡ six_at t.now i)
        × (six_at s.now (a + 6) ≡ six_at t.now (i + 6)) }
    ensures by_index { (j : ℕ) → get_or s.now j 0 < 256 }
{
    let here = four(s, a) + four(s, a + 4) * 4294967296;
    let there = four(t, i) + four(t, i + 4) * 4294967296;
    (here == there) & (four(s, a + 8) == four(t, i + 8))
}

// The power so far and its line's bytes, where the byte after `;` is LF.
fn ended(b: u8, v: u32, n: usize) -> Option<(u16, usize)>
    requires { v ≤ 9999 }
    ensures { result ≡ cond (eqb b 10) (Some (v, n)) None }
{
    if b == b'\n' {
        Some((v as u16, n))
    } else {
        None
    }
}

// The power, `;` and LF that six bytes begin with, and how many bytes the line has with the twelve of its labels. Not
// by `power_of`: on each way it is known here which byte has to be LF, and none is looked up by its place.
fn tail_of(a: u8, b: u8, c: u8, d: u8, e: u8, f: u8) -> Option<(u16, usize)>
    ensures { TailSays a b c d e f result }
{
    let one = digit_value(a);
    if 9 < one {
        return None;
    }
    if b == b';' {
        return ended(c, one, 15);
    }
    let next = digit_value(b);
    if 9 < next {
        return None;
    }
    if one == 0 {
        return None;
    }
    let two = one * 10 + next;
    if c == b';' {
        return ended(d, two, 16);
    }
    let next = digit_value(c);
    if 9 < next {
        return None;
    }
    let three = two * 10 + next;
    if d == b';' {
        return ended(e, three, 17);
    }
    let next = digit_value(d);
    if 9 < next {
        return None;
    }
    if e == b';' {
        ended(f, three * 10 + next, 18)
    } else {
        None
    }
}

// The line at a place near the end: two times as in a list of them, a power and `;`, and LF, with how many bytes
// these are.
fn last_line(s: &[u8], a: usize, t: &[u8], i: usize) -> Option<(u16, usize)>
    requires { (a ≤ length s.now) × (i + 12 ≤ length t.now) }
    ensures { LineSays s.now a (six_at t.now i) (six_at t.now (i + 6)) result }
{
    if s.len() - a < 15 {
        return None;
    }
    if !twelve(s, a, t, i) {
        return None;
    }
    let p = a + 12;
    tail_of(
        s[p],
        s[p + 1],
        s[p + 2],
        byte_at(s, p + 3),
        byte_at(s, p + 4),
        byte_at(s, p + 5),
    )
}

// The place that a line has to begin before, so that the longest there is has room.
pub(crate) fn room_in(s: &[u8]) -> usize
    ensures { (a : ℕ) → a < result → a + 18 ≤ length s.now }
{
    if s.len() < 18 {
        return 0;
    }
    s.len() - 17
}

// The line at a place, where the longest there is has room before a place that is given.
pub(crate) fn good_line(s: &[u8], a: usize, room: usize, t: &[u8], i: usize) -> Option<(u16, usize)>
    requires { (a ≤ length s.now) × (i + 12 ≤ length t.now) × (a < room → a + 18 ≤ length s.now) }
    ensures { LineSays s.now a (six_at t.now i) (six_at t.now (i + 6)) result }
{
    if room <= a {
        return last_line(s, a, t, i);
    }
    if !twelve(s, a, t, i) {
        return None;
    }
    let p = a + 12;
    tail_of(s[p], s[p + 1], s[p + 2], s[p + 3], s[p + 4], s[p + 5])
}
