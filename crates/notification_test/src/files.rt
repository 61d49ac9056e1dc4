// The notifications that the cases begin with.
use notification::{Key, Notification};

// 20210120 and 20211031: days of 48 and 50 steps.
pub(crate) const PLAIN_DAY: u32 = 7690;

pub(crate) const LONG_DAY: u32 = 7974;

// The guide's codes and category.
pub(crate) fn key_on(day: u32) -> Key {
    Key {
        ceder: *b"17X100A100R00000",
        acquirer: *b"17X100A100R00001",
        category: *b"13120C",
        day,
    }
}

pub(crate) fn noted(day: u32, steps: u32, powers: [u16; 50]) -> Notification {
    let key = key_on(day);
    Notification { key, steps, powers }
}

// The powers of the guide's example, 20 where it leaves lines out.
pub(crate) fn guide_powers() -> [u16; 50] {
    let mut powers = [20; 50];
    powers[..2].fill(15);
    powers[46..48].fill(15);
    powers[48..].fill(0);
    powers
}

// Powers of every length.
pub(crate) fn long_powers() -> [u16; 50] {
    [
        0, 7, 9999, 100, 10, 1000, 9, 99, 999, 1, 11, 12, 13, 14, 15, 16, 17, 18, 19, 20, 21, 22,
        23, 24, 25, 26, 27, 28, 29, 30, 31, 32, 33, 34, 35, 36, 37, 38, 39, 40, 41, 42, 43, 44, 45,
        46, 47, 48, 49, 50,
    ]
}

pub(crate) fn sevens() -> [u16; 50] {
    let mut powers = [7; 50];
    powers[48..].fill(0);
    powers
}

pub(crate) fn guide() -> Notification {
    noted(PLAIN_DAY, 48, guide_powers())
}
