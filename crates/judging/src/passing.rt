// Passing the records of a filing's category and day, once for all: those under its own key are listed, and the others
// are applied to the nets of ceder and acquirer.
ghost use Rattle.std.specs.Prelude.{◌≡◌, ℕ, ◌+◌, ◌/◌, ◌<◌, ◌≤◌, true, List};
ghost use Rattle.tables.specs.Lent.{columns_of};
ghost use Rattle.tables.specs.Passing.{in_market, is_under, PlacesOf};
ghost use Rattle.judging.specs.Nets.{base, Between, moves_for, PassedOne, Netted};

use crate::nets::apply_record;
use tables::markets::next_of;
use tables::records::{Records, UPDATED, VALIDATED};

// Whether a record moves power, with one of two actors as a party.
fn is_concerned(key: u32, status: u8, ceder: u32, acquirer: u32) -> bool
    ensures { result ≡ moves_for key status ceder acquirer }
{
    if !((status == VALIDATED) | (status == UPDATED)) {
        return false;
    }
    let given = key / 8 % 8;
    let taken = key % 8;
    ((given == ceder) | (given == acquirer)) | ((taken == ceder) | (taken == acquirer))
}

// Passes record i, which is of the filing's category and day: one under the filing's own key is noted in the list of
// these, and another is applied to the nets of ceder and acquirer. Gives how many are noted.
fn pass_record(
    ceder: &mut [u32; 50],
    acquirer: &mut [u32; 50],
    places: &mut [u8; 256],
    count: u32,
    records: Records,
    i: u32,
    own: u32,
    first: u32,
    until: u32,
) -> u32
    requires { ((i < 256) × (count ≤ i) × (until ≤ 50)) × (in_market records.keys.now (own / 64) i ≡ true)
        × Between ceder.old 65535 4294901760 × Between acquirer.old 65535 4294901760 }
    ensures { (ids : List ℕ) → PassedOne
        (columns_of records.entry ids)
        own first until i
        (record {
          ceder = ceder.old;
          acquirer = acquirer.old;
          places = places.old;
          count = count;
        })
        (record {
          ceder = ceder.new;
          acquirer = acquirer.new;
          places = places.new;
          count = result;
        }) }
{
    let at = i as usize;
    let key = records.keys[at];
    if key == own {
        places[count as usize] = i as u8;
        return count + 1;
    }
    let c = own / 8 % 8;
    let a = own % 8;
    if is_concerned(key, records.statuses[at], c, a) {
        let mark = records.marks[at];
        let row = &records.rows[at];
        apply_record(
            ceder,
            key % 8 == c,
            key / 8 % 8 == c,
            mark,
            row,
            first,
            until,
        );
        apply_record(
            acquirer,
            key % 8 == a,
            key / 8 % 8 == a,
            mark,
            row,
            first,
            until,
        );
    }
    count
}

// Applies the first n records to the nets of ceder and acquirer, and notes the places of those under the filing's own
// key. Gives how many these are. The nets are asked to be near their base, so that no sum wraps and none is tested.
pub fn pass_records(
    ceder: &mut [u32; 50],
    acquirer: &mut [u32; 50],
    places: &mut [u8; 256],
    records: Records,
    n: u32,
    own: u32,
    first: u32,
    until: u32,
) -> u32
    requires { (n ≤ 256) × (until ≤ 50) × Between ceder.old base (base + 65535)
        × Between acquirer.old base (base + 65535) }
    ensures { ((ids : List ℕ) → Netted
        (columns_of records.entry ids)
        n own (record { ceder = ceder.old; acquirer = acquirer.old })
        first until (record { ceder = ceder.new; acquirer = acquirer.new }))
        × PlacesOf (is_under records.entry.keys.now own) n result places.new }
{
    let mut count: u32 = 0;
    let mut i: u32 = 0;
    // By index: each search begins past the place that the last one found, which an iterator would have to carry too.
    loop {
        let k = next_of(records.keys, i, n, own / 64);
        if n <= k {
            break;
        }
        count = pass_record(
            ceder, acquirer, places, count, records, k, own, first, until,
        );
        i = k + 1;
    }
    count
}
