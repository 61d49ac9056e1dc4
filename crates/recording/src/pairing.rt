// Whether a filing is paired: the other party has a created record under the key with the same powers (rule 2).
ghost use Rattle.std.specs.Prelude.{◌≡◌, List, ℕ, ◌<◌, ◌≤◌};
ghost use Rattle.ledger.specs.Filing.{same_powers, answers};
ghost use Rattle.tables.specs.Lent.{columns_of};
ghost use Rattle.tables.specs.Tables.{key_from, rec_of};
ghost use Rattle.tables.specs.Passing.{is_under, PlacesOf};
ghost use Rattle.recording.specs.Recording.{pairs_below};

use tables::comparing::equal_pairs;
use tables::records::{CREATED, Records};

// Whether two rows have the same power at every step. Each step is looked at, so that many are compared at once.
pub(crate) fn same_powers(ps: &[u16; 50], qs: &[u16; 50]) -> bool
    ensures { result ≡ same_powers ps.now qs.now }
{
    equal_pairs(ps, qs)
}

// Whether a record is the other party's created one under the key with the same powers. Rows go by reference, here and
// in `changing`: by value, each record's would be copied before its status is looked at.
fn is_answered(
    status: u8,
    key: u32,
    mark: [u8; 4],
    row: &[u16; 50],
    by: u32,
    own: u32,
    ps: &[u16; 50],
) -> bool
    ensures { result ≡ answers by (key_from own) ps.now (rec_of 0 status key mark row.now) }
{
    key == own && status == CREATED && u32::from(mark[0]) != by && same_powers(row, ps)
}

// Whether one of the records is answered; those under the key are listed, no more than there are places.
pub fn is_paired(
    records: Records,
    places: &[u8; 256],
    count: u32,
    by: u32,
    own: u32,
    ps: [u16; 50],
) -> bool
    requires { count ≤ 256 }
    ensures { (ids : List ℕ) (n : ℕ) →
        PlacesOf (is_under records.entry.keys.now own) n count places.now →
        result ≡ pairs_below (columns_of records.entry ids) n by own ps }
{
    let mut found = false;
    for place in &places[..count as usize] {
        let at = usize::from(*place);
        let mark = records.marks[at];
        found |= is_answered(
            records.statuses[at],
            records.keys[at],
            mark,
            &records.rows[at],
            by,
            own,
            &ps,
        );
    }
    found
}
