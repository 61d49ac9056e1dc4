// What the records move for an actor at a step. Of the columns, which C lends whole, the first n places are records.
ghost use Rattle.std.specs.Prelude.{◌≡◌, cond, List, ℕ, ◌<◌, ◌≤◌, ◌*◌};
ghost use Rattle.lists.specs.Sums.{sum_to};
ghost use Rattle.ledger.specs.Ledger.{moved_by};
ghost use Rattle.tables.specs.Lent.{columns_of};
ghost use Rattle.tables.specs.Tables.{record_in};
ghost use Rattle.recording.specs.Recording.{gained_at, given_at};

use tables::markets::next_of;
use tables::records::{Records, UPDATED, VALIDATED};

// What an actor acquires, and what it cedes.
#[derive(Clone, Copy)]
pub struct Totals {
    pub gained: u32,
    pub given: u32,
}

// The power that record i moves at a step.
fn moved_by(records: Records, i: u32, s: u32) -> u32
    requires { (i < 256) × (s < 50) }
    ensures { ((ids : List ℕ) →
        result ≡ moved_by s (record_in (columns_of records.entry ids) i))
        × (result ≤ 65535) }
{
    let at = i as usize;
    let status = records.statuses[at];
    let mark = records.marks[at];
    let moves = ((status == VALIDATED) | (status == UPDATED))
        & ((u32::from(mark[1]) <= s) & (s < u32::from(mark[2])));
    if moves {
        return u32::from(records.rows[at][s as usize]);
    }
    0
}

// The same where it is wanted, else 0.
fn moved_where(on: bool, records: Records, i: u32, s: u32) -> u32
    requires { (i < 256) × (s < 50) }
    ensures { ((ids : List ℕ) →
        result ≡ cond on (moved_by s (record_in (columns_of records.entry ids) i)) 0)
        × (result ≤ 65535) }
{
    if on { moved_by(records, i, s) } else { 0 }
}

// What the first n records of a category and day move for an actor at a step, which 10 has been tried for.
pub fn totals_of(records: Records, n: u32, market: u32, actor: u32, s: u32) -> Totals
    requires { (n ≤ 256) × (s < 50) }
    ensures { ((ids : List ℕ) →
        let cols = columns_of records.entry ids in
        (result.gained ≡ sum_to n (gained_at cols market actor s))
        × (result.given ≡ sum_to n (given_at cols market actor s)))
        × ((result.gained ≤ n * 65535) × (result.given ≤ n * 65535)) }
{
    let mut gained: u32 = 0;
    let mut given: u32 = 0;
    let mut i: u32 = 0;
    // By index: each search begins past the place that the last one found, which an iterator would have to carry too.
    loop {
        let k = next_of(records.keys, i, n, market);
        if n <= k {
            break;
        }
        let key = records.keys[k as usize];
        gained += moved_where(key % 8 == actor, records, k, s);
        given += moved_where(key / 8 % 8 == actor, records, k, s);
        i = k + 1;
    }
    Totals { gained, given }
}
