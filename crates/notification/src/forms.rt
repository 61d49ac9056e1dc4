// The forms of codes and categories (document 01, "The ledger"), and the bytes in which they are kept.
ghost use Rattle.std.specs.Prelude.{◌≡◌, ◌≤◌, length, take};
ghost use Rattle.lists.specs.Searches.{every};
ghost use Rattle.notification.specs.Forms.{is_digit, is_code_byte, is_code, is_category, filled, six_bytes};

use lists::bytes::byte_at;

// Whether a byte is a digit.
pub fn is_digit(b: u8) -> bool
    ensures { result ≡ is_digit b }
{
    b.is_ascii_digit()
}

// Whether a byte may stand in a code.
pub fn is_code_byte(b: u8) -> bool
    ensures { result ≡ is_code_byte b }
{
    b.is_ascii_uppercase() | is_digit(b) | (b == b'-')
}

// Whether a text is sixteen characters of a code. Each byte is looked at, so that many are tested at once.
pub fn is_code(s: &[u8]) -> bool
    ensures { result ≡ is_code s.now }
{
    if s.len() != 16 {
        return false;
    }
    let mut good = true;
    for b in s {
        good &= is_code_byte(*b);
    }
    good
}

// Whether the first five bytes of a text are digits.
fn five_digits(s: &[u8]) -> bool
    requires { 5 ≤ length s.now }
    ensures { result ≡ every is_digit (take 5 s.now) }
{
    s[..5].iter().all(|b| is_digit(*b))
}

// Whether a text is five digits, perhaps followed by C.
pub fn is_category(s: &[u8]) -> bool
    ensures { result ≡ is_category s.now }
{
    match s.len() {
        5 => five_digits(s),
        6 => five_digits(s) & (s[5] == b'C'),
        _ => false,
    }
}

// A code in sixteen bytes, or a category in six: 0 stands last where it has no C.
pub fn in_bytes<const N: usize>(s: &[u8]) -> [u8; N]
    ensures { result ≡ filled N s.now }
{
    let mut bytes = [0; N];
    for (i, b) in bytes.iter_mut().enumerate() {
        *b = byte_at(s, i);
    }
    bytes
}
