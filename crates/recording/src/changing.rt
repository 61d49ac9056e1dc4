// What a filing makes of the records before it (rules 1 to 3).
ghost use Rattle.std.specs.Prelude.{◌≡◌, List, ℕ, ◌<◌, ◌≤◌, ◌/◌, get_or};
ghost use Rattle.calendar.specs.Clocks.{first_counted};
ghost use Rattle.calendar.specs.declared.clock.Clock.{Clock};
ghost use Rattle.ledger.specs.Filing.{changed};
ghost use Rattle.tables.specs.Tables.{columns, key_from, rec_of};
ghost use Rattle.tables.specs.More.{with_until};
ghost use Rattle.tables.specs.Passing.{is_under, PlacesOf};
ghost use Rattle.recording.specs.Recording.{ChangedAt, Changed};

use crate::pairing::same_powers;
use calendar::Clock;
use tables::records::{ANSWERED, CREATED, DELETED, OBSOLETE, UPDATED, VALIDATED};

// A record's status and until-step.
#[derive(Clone, Copy)]
pub struct Change {
    pub status: u8,
    pub until: u8,
}

// What a filing from a first step, under its own key, makes of a record of that key.
fn change_of(
    paired: bool,
    clock: Clock,
    by: u32,
    own: u32,
    ps: &[u16; 50],
    status: u8,
    mark: [u8; 4],
    row: &[u16; 50],
) -> Change
    requires { first_counted clock (own / 256) < 256 }
    ensures { (id : ℕ) →
        (result.status ≡ (changed paired clock by (key_from own) ps.now (rec_of id status own mark row.now)).status)
        × (result.until ≡ (changed paired clock by (key_from own) ps.now (rec_of id status own mark row.now)).until) }
{
    let until = mark[2];
    if status == CREATED {
        if u32::from(mark[0]) == by {
            return Change {
                status: DELETED,
                until,
            };
        }
        if paired & same_powers(row, ps) {
            return Change {
                status: ANSWERED,
                until,
            };
        }
        return Change { status, until };
    }
    if paired & (status == VALIDATED) {
        let day = own / 256;
        let first = clock.first_counted(day);
        if clock.replaces_whole(u32::from(mark[1]), day) {
            return Change {
                status: OBSOLETE,
                until,
            };
        }
        return Change {
            status: UPDATED,
            until: first as u8,
        };
    }
    Change { status, until }
}

// A mark with another until-step.
fn with_until(mut mark: [u8; 4], until: u8) -> [u8; 4]
    ensures { (result ≡ with_until mark until) × (get_or result 2 0 ≡ until) }
{
    mark[2] = until;
    mark
}

// What a filing makes of record i: its status and until-step. Two of the columns are written and two are read, so
// that no struct of references holds the four.
fn change_at(
    statuses: &mut [u8; 256],
    keys: &[u32; 256],
    marks: &mut [[u8; 4]; 256],
    rows: &[[u16; 50]; 256],
    i: u32,
    paired: bool,
    clock: Clock,
    by: u32,
    own: u32,
    ps: [u16; 50],
)
    requires { (i < 256) × (first_counted clock (own / 256) < 256) }
    ensures { (ids : List ℕ) → ChangedAt paired clock by own ps i
        (columns statuses.old ids keys.now marks.old rows.now)
        statuses.new marks.new }
{
    let at = i as usize;
    if keys[at] == own {
        let mark = marks[at];
        let change = change_of(paired, clock, by, own, &ps, statuses[at], mark, &rows[at]);
        let next = with_until(mark, change.until);
        statuses[at] = change.status;
        marks[at] = next;
    }
}

// What a filing makes of the records: their statuses and until-steps. Those under its key are listed, and no other
// changes. A filing that passes 28 has a first counted step that fits the byte it is put in.
pub fn change_all(
    statuses: &mut [u8; 256],
    keys: &[u32; 256],
    marks: &mut [[u8; 4]; 256],
    rows: &[[u16; 50]; 256],
    places: &[u8; 256],
    count: u32,
    paired: bool,
    clock: Clock,
    by: u32,
    own: u32,
    ps: [u16; 50],
)
    requires { (count ≤ 256) × (first_counted clock (own / 256) < 256) }
    ensures { (ids : List ℕ) (n : ℕ) →
        PlacesOf (is_under keys.now own) n count places.now →
        Changed paired clock by own ps n
        (columns statuses.old ids keys.now marks.old rows.now)
        statuses.new marks.new }
{
    for place in &places[..count as usize] {
        let i = u32::from(*place);
        change_at(statuses, keys, marks, rows, i, paired, clock, by, own, ps);
    }
}
