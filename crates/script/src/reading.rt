// What a line of the script asks. A number that a line ends with is its rest: one with a comma is no number. A line
// and a place in it go as two parameters, as in `fields`.
ghost use Rattle.std.specs.Prelude.{◌≡◌, ◌≤◌, length};
ghost use Rattle.script.specs.Lines.{advance_line, enrol_line, category_line, load_line, file_line};
ghost use Rattle.script.specs.Lines.{engagement_line, record_line};
ghost use Rattle.script.specs.Spans.{start, names_file, line_read};
ghost use Rattle.script.specs.Walking.{or_unknown, read_by};

use crate::fields::{comma_from, comma_past};
use crate::numbers::{count_in, number_in};
use calendar::day_of;
use lists::bytes::has_byte;

// The bytes of a code and of a date.
const CODE: usize = 16;

const DATE: usize = 8;

// The calls of demand 3's list that are all on their line.
#[derive(Clone, Copy)]
pub enum CallKind {
    Advance,
    EnrolActor,
    EnrolCategory,
    Load,
}

// What a line asks. A line that files has its body in a file.
#[derive(Clone, Copy)]
pub enum Kind {
    Calls(CallKind),
    Files,
    Engagement,
    RecordOf,
    Unknown,
}

// A line read. Texts are spans of the line: the first starts at 2 and ends before `first`, the second starts one after
// that and ends before `second`. `day` is also an actor's first day; `number` is a minute, an actor's last day, an
// approved power, a step or an id. The powers are `count` fields that start at `from`. What a kind doesn't have is 0.
// One struct for all kinds and not an enum with the parts of each: the functions of `parts` promise something of every
// line's `first` and `second`, and so does what docs/READING.md says of `named_line`.
#[derive(Clone, Copy)]
pub struct Line {
    pub kind: Kind,
    pub first: usize,
    pub second: usize,
    pub day: u32,
    pub number: u32,
    pub from: usize,
    pub count: usize,
}

// A line of no known form.
const UNKNOWN: Line = Line {
    kind: Kind::Unknown,
    first: 0,
    second: 0,
    day: 0,
    number: 0,
    from: 0,
    count: 0,
};

// `T,date,minute`
fn advance(line: &[u8]) -> Option<Line>
    requires { start ≤ length line.now }
    ensures { or_unknown result ≡ read_by line.now advance_line }
{
    let date = comma_from(line, 2)?;
    let day = day_of(&line[2..date])?;
    let minute = number_in(&line[date + 1..])?;
    Some(Line {
        kind: Kind::Calls(CallKind::Advance),
        day,
        number: minute,
        ..UNKNOWN
    })
}

// `A,code,first,last`
fn enrol(line: &[u8]) -> Option<Line>
    requires { start ≤ length line.now }
    ensures { or_unknown result ≡ read_by line.now enrol_line }
{
    let code = comma_past::<CODE>(line, 2)?;
    let date = comma_from(line, code + 1)?;
    let first = day_of(&line[code + 1..date])?;
    let last = day_of(&line[date + 1..])?;
    Some(Line {
        kind: Kind::Calls(CallKind::EnrolActor),
        first: code,
        day: first,
        number: last,
        ..UNKNOWN
    })
}

// `C,category`
fn category(line: &[u8]) -> Option<Line>
    requires { start ≤ length line.now }
    ensures { or_unknown result ≡ read_by line.now category_line }
{
    if has_byte(&line[2..], b',') {
        return None;
    }
    Some(Line {
        kind: Kind::Calls(CallKind::EnrolCategory),
        first: line.len(),
        ..UNKNOWN
    })
}

// `F,submitter,name`
fn file(line: &[u8]) -> Option<Line>
    requires { start ≤ length line.now }
    ensures { or_unknown result ≡ read_by line.now file_line }
{
    let submitter = comma_past::<CODE>(line, 2)?;
    if has_byte(&line[submitter + 1..], b',') {
        return None;
    }
    Some(Line {
        kind: Kind::Files,
        first: submitter,
        second: line.len(),
        ..UNKNOWN
    })
}

// `E,actor,category,date,step`
fn engagement(line: &[u8]) -> Option<Line>
    requires { start ≤ length line.now }
    ensures { or_unknown result ≡ read_by line.now engagement_line }
{
    let actor = comma_past::<CODE>(line, 2)?;
    let category = comma_from(line, actor + 1)?;
    let date = comma_past::<DATE>(line, category + 1)?;
    let day = day_of(&line[category + 1..date])?;
    let step = number_in(&line[date + 1..])?;
    Some(Line {
        kind: Kind::Engagement,
        first: actor,
        second: category,
        day,
        number: step,
        ..UNKNOWN
    })
}

// `R,asker,id`
fn record_of(line: &[u8]) -> Option<Line>
    requires { start ≤ length line.now }
    ensures { or_unknown result ≡ read_by line.now record_line }
{
    let asker = comma_past::<CODE>(line, 2)?;
    let id = number_in(&line[asker + 1..])?;
    Some(Line {
        kind: Kind::RecordOf,
        first: asker,
        number: id,
        ..UNKNOWN
    })
}

// `L,actor,category,date,approved,` then one power or more
fn load(line: &[u8]) -> Option<Line>
    requires { start ≤ length line.now }
    ensures { or_unknown result ≡ read_by line.now load_line }
{
    let actor = comma_past::<CODE>(line, 2)?;
    let category = comma_from(line, actor + 1)?;
    let date = comma_past::<DATE>(line, category + 1)?;
    let end = comma_from(line, date + 1)?;
    let day = day_of(&line[category + 1..date])?;
    let approved = number_in(&line[date + 1..end])?;
    let from = end + 1;
    let count = count_in(line, from)?;
    Some(Line {
        kind: Kind::Calls(CallKind::Load),
        first: actor,
        second: category,
        day,
        number: approved,
        from,
        count,
    })
}

// What a line asks, where it has a known form.
fn known(line: &[u8]) -> Option<Line>
    ensures { or_unknown result ≡ line_read line.now }
{
    let n = line.len();
    if 512 < n {
        return None;
    }
    if n < 2 {
        return None;
    }
    if line[1] != b',' {
        return None;
    }
    match line[0] {
        b'E' => engagement(line),
        b'F' => file(line),
        b'T' => advance(line),
        b'R' => record_of(line),
        b'L' => load(line),
        b'A' => enrol(line),
        b'C' => category(line),
        _ => None,
    }
}

// What a line asks.
pub fn read_line(line: &[u8]) -> Line
    ensures { result ≡ line_read line.now }
{
    known(line).unwrap_or(UNKNOWN)
}

// Whether a line of a kind names a file.
pub fn names_file(kind: Kind) -> bool
    ensures { result ≡ names_file kind }
{
    matches!(kind, Kind::Files)
}
