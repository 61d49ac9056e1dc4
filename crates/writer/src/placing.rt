// Texts put into a lent buffer, one after another. What stands before and after them stays.
ghost use Rattle.std.specs.Prelude.{[], ◌∷◌, ◌++◌, ◌+◌, ◌≤◌, ◌<◌, length};
ghost use Rattle.writer.specs.Placing.{Placed};

// Puts a text at a place, and gives the place after it.
pub fn put_text(buffer: &mut [u8], at: usize, text: &[u8]) -> usize
    requires { at + length text.now ≤ length buffer.old }
    ensures { Placed buffer.old at text.now buffer.new result }
{
    let end = at + text.len();
    buffer[at..end].copy_from_slice(text);
    end
}

// Puts a text and the byte that ends it.
pub fn put_ended(buffer: &mut [u8], at: usize, text: &[u8], end: u8) -> usize
    requires { at + length text.now < length buffer.old }
    ensures { Placed buffer.old at (text.now ++ end ∷ []) buffer.new result }
{
    let next = put_text(buffer, at, text);
    buffer[next] = end;
    next + 1
}
