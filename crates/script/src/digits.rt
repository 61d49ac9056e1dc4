// Numbers in base ten, put into a lent buffer. What stands before and after them stays.
ghost use Rattle.std.specs.Prelude.{◌≡◌, ◌+◌, ◌≤◌, length};
ghost use Rattle.writer.specs.Placing.{Placed};
ghost use Rattle.script.specs.Numbers.{decimal};

// How many digits a number has. Most numbers have few, and are compared first.
fn count_of(n: u64) -> usize
    ensures { result ≡ length (decimal n) }
{
    if n < 10 {
        return 1;
    }
    if n < 100 {
        return 2;
    }
    if n < 1000 {
        return 3;
    }
    if n < 10000 {
        return 4;
    }
    let mut count: usize = 5;
    let mut rest = n / 10000;
    // Each turn takes a digit off.
    while 10 <= rest {
        count += 1;
        rest /= 10;
    }
    count
}

// Puts a number's digits at a place, the last one first, and gives the place after them.
pub(crate) fn put_number(out: &mut [u8], at: usize, n: u64) -> usize
    requires { at + length (decimal n) ≤ length out.old }
    ensures { Placed out.old at (decimal n) out.new result }
{
    let end = at + count_of(n);
    let mut rest = n;
    for place in (at..end).rev() {
        // A digit fits a byte.
        out[place] = b'0' + (rest % 10) as u8;
        rest /= 10;
    }
    end
}
