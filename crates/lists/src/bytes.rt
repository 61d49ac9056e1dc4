// The bytes of a text: one at a place, and where one stands.
ghost use Rattle.std.specs.Prelude.{◌≡◌, get_or};
ghost use Rattle.lists.specs.Searches.{some, is_byte, byte_from};

// The byte at a place, and 0 past the end.
pub fn byte_at(s: &[u8], i: usize) -> u8
    ensures { result ≡ get_or s.now i 0 }
{
    s.get(i).copied().unwrap_or(0)
}

// Whether a text has a byte. Each of its bytes is looked at, so that many are compared at once.
pub fn has_byte(s: &[u8], b: u8) -> bool
    ensures { result ≡ some (is_byte b) s.now }
{
    let mut found = false;
    for x in s {
        found |= *x == b;
    }
    found
}

// The place of a byte, from a place on; the end of the text where there is none, and no Option: what stands before the
// byte is what stands before the end then. By hand: a `for` over the places takes seven instructions a byte where it is
// inlined, and this five; by the library's search the file's reader takes longer for files that it accepts.
pub fn byte_from(s: &[u8], from: usize, b: u8) -> usize
    ensures { result ≡ byte_from b s.now from }
{
    let mut i = from;
    while i < s.len() {
        if s[i] == b {
            return i;
        }
        i += 1;
    }
    i
}

// The same of a byte that is likely far: sixteen others are passed at once. By index: a `for` over chunks of sixteen
// would count by hand as well how far it came, since the search goes on from there.
pub fn far_byte_from(s: &[u8], from: usize, b: u8) -> usize
    ensures { result ≡ byte_from b s.now from }
{
    let end = s.len().saturating_sub(15);
    let mut i = from;
    while i < end {
        if has_byte(&s[i..i + 16], b) {
            break;
        }
        i += 16;
    }
    byte_from(s, i, b)
}
