// The parts of a line that was read: its texts and its powers.
ghost use Rattle.std.specs.Prelude.{◌≡◌};
ghost use Rattle.script.specs.Spans.{cut, first_text, second_text, powers_read};

use crate::numbers::numeral_from;
use crate::reading::Line;

// What stands for a field that is no number: the least number that has more than five digits. No Option: a load's call
// takes its powers as numbers side by side, and of a line that was read each field is one.
const NUMBER_END: u32 = 100000;

// The part of a line from a place to before another, as far as it lies in the line.
fn part(line: &[u8], from: usize, to: usize) -> &[u8]
    ensures { result.now ≡ cut line.now from to }
{
    let end = to.min(line.len());
    &line[from.min(end)..end]
}

// The line's first text, from after its letter and comma to where it was read to end.
pub fn first_text(line: &[u8], read: Line) -> &[u8]
    ensures { result.now ≡ first_text line.now read }
{
    part(line, 2, read.first)
}

// The line's second text, after the comma that ends the first.
pub fn second_text(line: &[u8], read: Line) -> &[u8]
    ensures { result.now ≡ second_text line.now read }
{
    part(line, read.first.saturating_add(1), read.second)
}

// The powers of a line, zeros after them, and how many they are: no heap holds a list of their own length.
#[derive(Clone, Copy)]
pub struct Powers {
    pub count: usize,
    pub numbers: [u32; 256],
}

// The powers of a line that was read, from the place where they start: at most 256, and no more than there are fields.
pub fn powers_of(line: &[u8], read: Line) -> Powers
    ensures { result ≡ powers_read line.now read }
{
    let most = read.count.min(256);
    let mut numbers = [0u32; 256];
    let mut at = read.from;
    // By index: it is also how many powers there are where the line ends early.
    for count in 0..most {
        if line.len() < at {
            return Powers { count, numbers };
        }
        let numeral = numeral_from(line, at);
        numbers[count] = numeral.number.unwrap_or(NUMBER_END);
        at = numeral.end + 1;
    }
    Powers {
        count: most,
        numbers,
    }
}
