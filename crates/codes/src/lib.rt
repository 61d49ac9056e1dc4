// The check character of an EIC code (document 02, K5).
#![tactic(auto)]

ghost use Rattle.std.specs.Prelude.{◌≡◌};
ghost use Rattle.codes.specs.Codes.{is_letter, value_of, check_value, has_check};

use lists::bytes::byte_at;
use notification::forms::is_digit;

// Whether a byte is a letter from A to Z.
fn is_letter(b: u8) -> bool
    ensures { result ≡ is_letter b }
{
    b.is_ascii_uppercase()
}

// The value of a character: 0 to 9 theirs, A to Z 10 to 35, a hyphen 36.
fn value_of(b: u8) -> u32
    ensures { result ≡ value_of b }
{
    if is_digit(b) {
        return u32::from(b) - 48;
    }
    if is_letter(b) {
        return 10 + (u32::from(b) - 65);
    }
    36
}

// The value that the sixteenth character must have, by the sum of the first fifteen as they are weighed.
fn check_value(sum: u32) -> u32
    ensures { result ≡ check_value sum }
{
    if sum == 0 { 0 } else { 36 - (sum - 1) % 37 }
}

// Whether the sixteenth character of a code is its check character.
pub fn has_check(s: &[u8]) -> bool
    ensures { result ≡ has_check s.now }
{
    let mut sum: u32 = 0;
    // By index: a text that has fewer characters is weighed too, with a 0 in the place of each that it lacks.
    for i in 0..15 {
        sum += (16 - i as u32) * value_of(byte_at(s, i));
    }
    let value = check_value(sum);
    (value != 36) & (value_of(byte_at(s, 15)) == value)
}
