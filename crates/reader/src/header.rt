// The header as the first line.
ghost use Rattle.std.specs.Prelude.{◌≡◌, ◌≤◌, length, drop};
ghost use Rattle.lists.specs.Searches.{same};
ghost use Rattle.reader.specs.Walking.{starts_with};
ghost use Rattle.reader.specs.Folding.{other_header};

use crate::keys::is_header;
use refusals::InputRefusal;

// What is found of a line 1 that isn't the name's header, the number of its refusal: it is no header, or another's.
// Numbers and no enum: C holds the file reader that they stand in.
pub(crate) const NO_HEADER: u32 = InputRefusal::Header as u32;

pub(crate) const OTHER_HEADER: u32 = InputRefusal::Differs as u32;

// Whether two texts are the same.
pub fn alike(a: &[u8], b: &[u8]) -> bool
    ensures { result ≡ same a.now b.now }
{
    a == b
}

// Whether a header's line and its LF stand at a place of a text: looked at without searching the line's end.
pub(crate) fn is_headed(header: &[u8], body: &[u8], from: usize) -> bool
    requires { from ≤ length body.now }
    ensures { result ≡ starts_with header.now (drop from body.now) }
{
    body[from..].starts_with(header)
}

// What is found of a line 1 that isn't the name's header.
pub(crate) fn other_header(line: &[u8]) -> u32
    ensures { result ≡ other_header line.now }
{
    if is_header(line) {
        OTHER_HEADER
    } else {
        NO_HEADER
    }
}
