// Standard input by blocks.
ghost use Rattle.std.specs.Prelude.{◌≤◌, length, IfOk};

use crate::failing::Failure;
use crate::trying::read_some;
use lines::holding::{end_line, hold};

// The bytes that are there now: where they end, and whether nothing comes behind them.
#[derive(Clone, Copy)]
pub(crate) struct Block {
    pub(crate) end: usize,
    pub(crate) last: bool,
}

// Holds the line that starts at a place and has no end yet, and reads more input behind it. At the input's end this
// line is the last. Where the input fails, what is held of a line stays without an answer.
pub(crate) fn next_block(
    rt: &HostRuntime,
    input: &mut [u8],
    from: usize,
    to: usize,
) -> Result<Block, Failure>
    ensures { IfOk result (λ block. block.end ≤ length input.old) }
{
    let held = hold(input, from, to);
    match read_some(rt, &mut rt.stdin(), &mut input[held..]) {
        Ok(0) => Ok(Block {
            end: end_line(input, held),
            last: true,
        }),
        Ok(n) => Ok(Block {
            end: held + n,
            last: false,
        }),
        Err(error) => Err(Failure::unread(rt, &error)),
    }
}
