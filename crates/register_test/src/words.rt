// The words, numbers and dates of a scenario's line.
use calendar::{DAYS, day_of};

// A word of a line, or nothing past the last one.
pub(crate) fn word(line: &[u8], n: u8) -> &[u8] {
    line.split(|b| *b == b' ')
        .nth(usize::from(n))
        .unwrap_or(&[])
}

// A line from a word on.
pub(crate) fn rest(line: &[u8], n: u8) -> &[u8] {
    line.splitn(usize::from(n) + 1, |b| *b == b' ')
        .nth(usize::from(n))
        .unwrap_or(&[])
}

// The first of a text's places, as many as there are to be.
pub(crate) fn first<T>(items: &[T], n: usize) -> &[T] {
    &items[..n.min(items.len())]
}

// A number with one digit more.
fn with_digit(n: u32, digit: u8) -> u32 {
    ((u64::from(n) * 10 + u64::from(digit) % 48) % 1000000) as u32
}

// The number that a word's digits say.
pub(crate) fn number(word: &[u8]) -> u32 {
    word.iter().fold(0, |n, digit| with_digit(n, *digit))
}

// The day that a word says; a word that is no date stands for the first day that is out of range.
pub(crate) fn date(word: &[u8]) -> u32 {
    day_of(word).unwrap_or(DAYS)
}
