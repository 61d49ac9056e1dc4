// Lines answered one after the other, as far as they go without a file, more input or more room.
ghost use Rattle.std.specs.Prelude.{◌≡◌, drop};
ghost use Rattle.notification.specs.Reading.{lines_in};
ghost use Rattle.session.specs.Stores.{register_in};
ghost use Rattle.lines.specs.Walking.{stands, has_room, walk, Progressed};

use crate::ends::line_end;
use script::reading::{names_file, read_line};
use script::writing::{LINE_ROOM, write_answer};
use session::answering::answer;
use session::calling::{File, filed};
use session::store::Store;

// What the lines want before they go on.
#[derive(Clone, Copy)]
pub enum Wants {
    // more input: no line is left that has its LF
    Input,
    // the file that the next line names: its name is the input from the first place to before the second
    File(usize, usize),
    // room for an answer: those that wait have to be written first
    Room,
}

// How far the lines went: how many lines were answered so far, where the next one starts, how many bytes of answers
// wait, and what is wanted.
#[derive(Clone, Copy)]
pub struct Progress {
    pub number: u64,
    pub at: usize,
    pub out: usize,
    pub wants: Wants,
}

// Whether there is room for the longest answer behind those that wait.
fn has_room(output: &[u8], out: usize) -> bool
    ensures { result ≡ has_room output.now out }
{
    output
        .len()
        .checked_sub(LINE_ROOM)
        .is_some_and(|last| out <= last)
}

// Answers the lines of the input from a place on that have their LF, and puts their answers behind those that wait in
// the output. A line that names a file is answered by what it was read as: `given` is what is known of the first
// line's.
pub fn answer_lines(
    store: &mut Store,
    number: u64,
    input: &[u8],
    at: usize,
    output: &mut [u8],
    out: usize,
    given: Option<File>,
) -> Progress
    ensures { (stands (register_in store.new) result.number result.at output.new result.out result.wants
        ≡ walk given (stands (register_in store.old) number at output.old out Wants.Input)
        (lines_in (drop at input.now)))
        × Progressed input.now at output.old out result }
{
    let mut number = number;
    let mut at = at;
    let mut out = out;
    let mut given = given;
    let mut wants = Wants::Input;
    // By hand: each turn goes on where its line ended.
    while let Some(stop) = line_end(input, at) {
        if !has_room(&*output, out) {
            wants = Wants::Room;
            break;
        }
        let line = &input[at..stop];
        let read = read_line(line);
        let said = if names_file(read.kind) {
            let Some(file) = given else {
                let name = read.first + 1;
                wants = Wants::File(at + name, stop);
                break;
            };
            filed(store, line, read, file)
        } else {
            answer(store, line, read, None)
        };
        number = number.wrapping_add(1);
        out = write_answer(number, said, &mut *output, out);
        at = stop + 1;
        given = None;
    }
    Progress {
        number,
        at,
        out,
        wants,
    }
}
