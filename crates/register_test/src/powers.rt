// Powers and keys, from the words of a line.
use crate::actors::code_of;
use crate::words::{date, number, rest, word};
use calendar::steps_of;
use notification::forms::in_bytes;
use notification::{Key, Notification};
use std::array;

// One power at each step below a turn, and another from the turn on.
#[derive(Clone, Copy)]
pub(crate) struct Profile {
    first: u32,
    turn: usize,
    then: u32,
}

// The step that a word says; without one, the first step past the longest day, and no Option: no step is at or past it.
fn turn_of(word: &[u8]) -> usize {
    if word.is_empty() {
        50
    } else {
        number(word) as usize
    }
}

// The profile that a line's words say: a power, and perhaps a step and the power from it on.
pub(crate) fn profile_of(words: &[u8]) -> Profile {
    Profile {
        first: number(word(words, 0)),
        turn: turn_of(word(words, 1)),
        then: number(word(words, 2)),
    }
}

// The power at a step.
fn power_at(p: Profile, step: usize) -> u32 {
    if step < p.turn { p.first } else { p.then }
}

// The power at a step of a file: 0 past the day's steps.
fn filed_at(p: Profile, step: usize, steps: usize) -> u16 {
    if step < steps {
        (power_at(p, step) % 65536) as u16
    } else {
        0
    }
}

// A load: whose, for which day, the approved power, and the powers, as many as the count says.
#[derive(Clone, Copy)]
pub(crate) struct Load {
    pub actor: [u8; 16],
    pub day: u32,
    pub approved: u32,
    pub count: usize,
    pub powers: [u32; 50],
}

// The load that a line says, with one power a step of the longest day.
pub(crate) fn load_of(line: &[u8]) -> Load {
    let profile = profile_of(rest(line, 6));
    Load {
        actor: code_of(word(line, 1)),
        day: date(word(line, 3)),
        approved: number(word(line, 4)),
        count: number(word(line, 5)) as usize,
        powers: array::from_fn(|step| power_at(profile, step)),
    }
}

// The key of a file: ceder, acquirer, category and date.
fn key_of(words: &[u8]) -> Key {
    Key {
        ceder: code_of(word(words, 0)),
        acquirer: code_of(word(words, 1)),
        category: in_bytes(word(words, 2)),
        day: date(word(words, 3)),
    }
}

// The notification that a key and a profile say.
pub(crate) fn noted(words: &[u8], p: Profile) -> Notification {
    let key = key_of(words);
    let steps = steps_of(key.day);
    Notification {
        key,
        steps,
        powers: array::from_fn(|step| filed_at(p, step, steps as usize)),
    }
}
