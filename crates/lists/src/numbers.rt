// What a digit in a text stands for.
ghost use Rattle.std.specs.Prelude.{◌≡◌};
ghost use Rattle.lists.specs.Digits.{digit_value};

// What a digit stands for, and more than 9 where a byte is no digit. A number and no Option: whether it is above 9 is
// the one test that an Option would be told by as well.
pub fn digit_value(b: u8) -> u32
    ensures { result ≡ digit_value b }
{
    u32::from(b).wrapping_sub(u32::from(b'0'))
}
