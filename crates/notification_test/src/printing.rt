// Notifications and refusals on standard output, and sums by which texts and notifications are held against each other.
use notification::Notification;
use refusals::{Refusal, number_of, place_of};
use std::io;

pub(crate) fn put_refusal(rt: &impl Print, r: Refusal) -> io::Result<()> {
    print!(rt; "no {} at {}", number_of(r), place_of(r))
}

// A running sum that changes with each value and its place.
fn mix(sum: u32, value: u32) -> u32 {
    ((u64::from(sum) * 257 + u64::from(value)) % 1000000007) as u32
}

// The sum after bytes or powers.
pub(crate) fn mixed<T: Copy + Into<u32>>(before: u32, values: &[T]) -> u32 {
    values
        .iter()
        .fold(before, |sum, value| mix(sum, (*value).into()))
}

// A plain sum, of less than a million.
fn total(powers: &[u16]) -> u32 {
    powers.iter().fold(0, |sum, power| {
        ((u64::from(sum) + u64::from(*power)) % 1000000) as u32
    })
}

// The sum over all of a notification: codes, category, day, count of steps and powers.
fn mark(n: Notification) -> u32 {
    let key = n.key;
    let codes = mixed(mixed(1, &key.ceder), &key.acquirer);
    let day = mix(mixed(codes, &key.category), key.day);
    mixed(mix(day, n.steps), &n.powers)
}

pub(crate) fn put_notification(rt: &impl Print, n: Notification) -> io::Result<()> {
    print!(rt;
        "ok, steps {}, sum {}, mark {}",
        n.steps,
        total(&n.powers),
        mark(n)
    )
}

// The sum over all of a reading.
pub(crate) fn sum_of(reading: Result<Notification, Refusal>) -> u32 {
    match reading {
        Ok(n) => mix(mark(n), 0),
        Err(r) => mix(number_of(r), place_of(r)),
    }
}
