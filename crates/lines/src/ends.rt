// Where a line ends.
ghost use Rattle.lines.specs.Walking.{LineFound};

use lists::bytes::far_byte_from;

// The LF that ends the line that starts at a place, where one does.
pub(crate) fn line_end(s: &[u8], from: usize) -> Option<usize>
    ensures { LineFound s.now from result }
{
    let end = far_byte_from(s, from, b'\n');
    if end < s.len() { Some(end) } else { None }
}
