// The script answered: lines as far as they go, and then what they want.
use crate::bodies::read_named;
use crate::failing::Failure;
use crate::input::next_block;
use crate::output::flush;
use lines::answering::{Wants, answer_lines};
use session::store::Store;

// Answers standard input to its end, from a register on. Answers are written where there is no room for more, and
// before more input is awaited. A proved loop has to end, and nothing says that input does: so the turns are counted,
// up to a number that no run uses up.
pub(crate) fn run(
    rt: &HostRuntime,
    store: &mut Store,
    part: &mut [u8],
    input: &mut [u8],
    output: &mut [u8],
) -> Result<(), Failure> {
    let mut number: u64 = 0;
    let mut at: usize = 0;
    let mut end: usize = 0;
    let mut last = false;
    let mut out: usize = 0;
    let mut given = None;
    for _ in 0..u64::MAX {
        let far = answer_lines(store, number, &input[..end], at, output, out, given);
        number = far.number;
        at = far.at;
        out = far.out;
        if let Wants::File(from, to) = far.wants {
            given = Some(read_named(rt, &input[from..to], &mut *part));
            continue;
        }
        flush(rt, &output[..out])?;
        out = 0;
        given = None;
        if let Wants::Room = far.wants {
            continue;
        }
        if last {
            return Ok(());
        }
        let block = next_block(rt, input, at, end)?;
        at = 0;
        end = block.end;
        last = block.last;
    }
    Err(Failure::Unread)
}
