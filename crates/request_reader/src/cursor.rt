// The reader's cursor (document 02: "the JSON reader walks the request's bytes and never copies them"): the body of a
// request and a place in it. Its functions take it apart and leave the work to those that take a slice and a place.
ghost use Rattle.std.specs.Prelude.{◌≡◌, drop};
ghost use Rattle.request.specs.Reading.{read_object};

use crate::reading::read_from;
use refusals::Refusal;
use request::Request;

// The body of a request, and a place in it.
#[derive(Clone, Copy)]
pub struct Cursor<'a> {
    pub body: &'a [u8],
    pub at: usize,
}

// A cursor at the beginning of a body.
pub fn start<'a>(body: &'a [u8]) -> Cursor<'a>
    ensures { (result.body ≡ body.entry) × (result.at ≡ 0) }
{
    Cursor { body, at: 0 }
}

// Reads the object that stands from the cursor's place to the end of the body.
pub fn read<'a>(c: Cursor<'a>) -> Result<Request, Refusal>
    ensures { result ≡ read_object (drop c.entry.at c.entry.body.now) }
{
    read_from(c.body, c.at)
}
