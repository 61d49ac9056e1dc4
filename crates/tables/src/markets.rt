// The records of one category and day among all: where the next of them stands.
ghost use Rattle.std.specs.Prelude.{◌≡◌, ◌≤◌, ◌+◌, ◌-◌, min};
ghost use Rattle.lists.specs.Searches.{first_from};
ghost use Rattle.tables.specs.Passing.{bits_from, in_market};

use crate::records::RECORDS;

// Which of four records in a row are of a category and day, as bits. Each is looked at, so that the four are compared
// at once.
fn bits_of_four(keys: &[u32; 256], i: u32, market: u32) -> u32
    requires { i + 4 ≤ 256 }
    ensures { result ≡ bits_from (in_market keys.now market) i 4 }
{
    let at = i as usize;
    u32::from(keys[at] / 64 == market)
        + 2 * u32::from(keys[at + 1] / 64 == market)
        + 4 * u32::from(keys[at + 2] / 64 == market)
        + 8 * u32::from(keys[at + 3] / 64 == market)
}

// The place of the next of the first n records, from i on, that is of a category and day; n where there is none, or i
// where that is above n: a number and no Option, since the contract names `first_from`. Both parties often file in
// turn, so record i is looked at first.
pub fn next_of(keys: &[u32; 256], i: u32, n: u32, market: u32) -> u32
    ensures { result ≡ first_from (in_market keys.now market) i (min n 256 - i) }
{
    let last = n.min(RECORDS);
    if last <= i {
        return i;
    }
    if keys[i as usize] / 64 == market {
        return i;
    }
    let mut k = i + 1;
    let end = last - last.min(3);
    // By index: what is left past the last four is looked at one by one, from where this loop ends.
    while k < end {
        let four = bits_of_four(keys, k, market);
        if four != 0 {
            return k + u32::trailing_zeros(four);
        }
        k += 4;
    }
    for k in k..last {
        if keys[k as usize] / 64 == market {
            return k;
        }
    }
    last
}
