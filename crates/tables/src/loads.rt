// The loads, in lent columns: of each its actor, category and day as one number, its approved power and its row of
// powers.
ghost use Rattle.std.specs.Prelude.{◌≡◌, true, ◌<◌, ◌≤◌, leb, length};
ghost use Rattle.lists.specs.Searches.{every};
ghost use Rattle.notification.specs.Forms.{in_places};
ghost use Rattle.tables.specs.Tables.{load_number};
ghost use Rattle.tables.specs.Passing.{last_load, load_row, load_most};

use crate::newest::newest;

// The places for loads.
pub const LOADS: u32 = 64;

// The loads' columns, as they are read.
#[derive(Clone, Copy)]
pub struct Loads<'a> {
    pub numbers: &'a [u32; 64],
    pub approved: &'a [u16; 64],
    pub rows: &'a [[u16; 50]; 64],
}

// Actor, category and day of a load as one number: places and days in their ranges, so that no two have the same.
pub fn load_number(actor: u32, category: u32, day: u32) -> u32
    requires { (actor < 8) × (category < 4) × (day < 36525) }
    ensures { result ≡ load_number actor category day }
{
    day * 32 + category * 8 + actor
}

// The newest of the first n loads with this number.
#[tactic(auto, unfolding(crate::specs::Passing::last_load))]
pub fn last_of(keys: &[u32; 64], n: u32, number: u32) -> Option<u32>
    ensures { result ≡ last_load keys.now n number }
{
    newest(keys, n, number)
}

// The powers of a load that was found, or zeros.
pub fn row_at(rows: &[[u16; 50]; 64], at: Option<u32>) -> [u16; 50]
    ensures { result ≡ load_row rows.now at }
{
    match at {
        Some(i) if i < LOADS => rows[i as usize],
        _ => [0; 50],
    }
}

// The approved power of a load that was found, or 0. `row_at` gives a row so: the two are as long as one would be.
pub fn approved_of(approved: &[u16; 64], at: Option<u32>) -> u32
    ensures { (result ≡ load_most approved.now at) × (result ≤ 65535) }
{
    match at {
        Some(i) if i < LOADS => u32::from(approved[i as usize]),
        _ => 0,
    }
}

// Powers in their places, with 0 past them. A load that passes 10 has no more than a day's steps, each below 10,000.
pub fn in_places(powers: &[u32]) -> [u16; 50]
    requires { (length powers.now ≤ 50) × (every (λ p. leb p 9999) powers.now ≡ true) }
    ensures { result ≡ in_places powers.now }
{
    let mut row = [0u16; 50];
    for (i, p) in powers.iter().enumerate() {
        row[i] = *p as u16;
    }
    row
}
