// The fold over a file's lines: the header first, then the steps.
ghost use Rattle.std.specs.Prelude.{◌≡◌, List, ℕ, ◌+◌, ◌≤◌, length, drop};
ghost use Rattle.notification.specs.Forms.{places};
ghost use Rattle.notification.specs.Reading.{lines_in};
ghost use Rattle.reader.specs.Walking.{whole_to};
ghost use Rattle.reader.specs.Folding.{with_powers, take_lines, headed_by, past_header, take_text, rest_of_text};

use crate::header::{is_headed, other_header};
use crate::steps::take_steps;
use crate::tally::{Run, Tally};
use lists::bytes::byte_from;

// No line was seen yet.
pub(crate) const NO_LINE: u32 = 0;

// The header is the name's.
const NAMES_HEADER: u32 = 1;

// What a file's lines so far have shown: what was found of the header (0: no line yet, 1: it is the name's, 3 and 4:
// what refuses it), and the steps. A number and no enum, as in the tally: it lies in the file reader that C holds.
#[repr(C)]
#[derive(Clone, Copy)]
pub struct FileTally {
    pub header: u32,
    pub steps: Tally,
}

// Where the unfinished line begins: after the last LF from a place on, or at the place.
fn rest_start(s: &[u8], from: usize) -> usize
    requires { from ≤ length s.now }
    ensures { result ≡ from + whole_to (drop from s.now) }
{
    match s[from..].iter().rev().position(|b| *b == b'\n') {
        Some(unfinished) => s.len() - unfinished,
        None => from,
    }
}

// The name's header, where it comes first.
fn take_header(t: FileTally, header: &[u8], body: &[u8], from: usize) -> Run<FileTally>
    requires { from ≤ length body.now }
    ensures tally_value { result.tally
        ≡ record {
          header = headed_by header.now t.header (drop from body.now);
          steps = t.steps;
        } }
    ensures body_value { drop result.at body.now
        ≡ past_header header.now t.header (drop from body.now) }
    ensures at_in_bounds { result.at ≤ length body.now }
{
    if t.header != NO_LINE {
        return Run { tally: t, at: from };
    }
    if !is_headed(header, body, from) {
        return Run { tally: t, at: from };
    }
    let tally = FileTally {
        header: NAMES_HEADER,
        ..t
    };
    Run {
        tally,
        at: from + header.len(),
    }
}

// The lines after a header that isn't the name's, or before any: the first is looked at where there was none. Not
// inlined, since a good file's lines don't come here.
#[inline(never)]
fn pass_lines(t: FileTally, body: &[u8], from: usize) -> Run<FileTally>
    requires { (from ≤ length body.now) × (t.header ≡ 1 → ⊥) }
    ensures by_index { (steps : ℕ) (powers : List ℕ) → with_powers result.tally powers
        ≡ take_lines steps (with_powers t powers) (lines_in (drop from body.now)) }
    ensures at_value { result.at ≡ from + whole_to (drop from body.now) }
{
    let at = rest_start(body, from);
    if t.header != NO_LINE {
        return Run { tally: t, at };
    }
    let end = byte_from(body, from, b'\n');
    if body.len() <= end {
        return Run { tally: t, at };
    }
    let tally = FileTally {
        header: other_header(&body[from..end]),
        ..t
    };
    Run { tally, at }
}

// A text's lines from a place on, each ended by LF, one after another, and where the unfinished line begins. The
// header's line that the name asks for is given with its LF. A text and a place in it, here and below, and not the
// rest of the text: what is given back is a place of the same text.
pub(crate) fn take_lines(
    t: FileTally,
    header: &[u8],
    steps: u32,
    body: &[u8],
    from: usize,
    powers: &mut [u16; 50],
) -> Run<FileTally>
    requires { (steps ≤ places) × (from ≤ length body.now) }
    ensures powers_after { with_powers result.tally powers.new
        ≡ take_text header.now steps (with_powers t powers.old) (drop from body.now) }
    ensures body_value { drop result.at body.now
        ≡ rest_of_text header.now t.header (drop from body.now) }
    ensures at_in_bounds { result.at ≤ length body.now }
{
    let first = take_header(t, header, body, from);
    if first.tally.header != NAMES_HEADER {
        return pass_lines(first.tally, body, first.at);
    }
    let run = take_steps(first.tally.steps, steps, body, first.at, powers);
    let tally = FileTally {
        header: NAMES_HEADER,
        steps: run.tally,
    };
    Run { tally, at: run.at }
}
