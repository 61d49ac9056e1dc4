// The fields of a line: where they end. A place goes as a number that the line reaches to: a struct that kept this
// would be made anew at each comma.
ghost use Rattle.std.specs.Prelude.{◌≤◌, length};
ghost use Rattle.script.specs.Walking.{FieldEnd, CommaFound};

use lists::bytes::{byte_from, has_byte};

// Where the field that starts at a place ends: at the next comma, or at the end of the line.
pub(crate) fn field_end(line: &[u8], from: usize) -> usize
    requires { from ≤ length line.now }
    ensures { FieldEnd line.now from result }
{
    byte_from(line, from, b',')
}

// The same of a field that likely has N bytes or more: so many are passed at once where none is a comma.
fn long_end<const N: usize>(line: &[u8], from: usize) -> usize
    requires { from ≤ length line.now }
    ensures { FieldEnd line.now from result }
{
    if N <= line.len() - from {
        let next = from + N;
        if !has_byte(&line[from..next], b',') {
            return byte_from(line, next, b',');
        }
    }
    byte_from(line, from, b',')
}

// The comma that ends the field that starts at a place.
pub(crate) fn comma_from(line: &[u8], from: usize) -> Option<usize>
    requires { from ≤ length line.now }
    ensures { CommaFound line.now from result }
{
    let end = field_end(line, from);
    if end < line.len() { Some(end) } else { None }
}

// The same of a field that likely has N bytes or more.
pub(crate) fn comma_past<const N: usize>(line: &[u8], from: usize) -> Option<usize>
    requires { from ≤ length line.now }
    ensures { CommaFound line.now from result }
{
    let end = long_end::<N>(line, from);
    if end < line.len() { Some(end) } else { None }
}
