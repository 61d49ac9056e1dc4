// The read-only calls. Each column is a parameter of its own, as C lends them.
ghost use Rattle.std.specs.Prelude.{◌≡◌, List, ℕ, length};
ghost use Rattle.ledger.specs.Asking.{ask_engagement, ask_record, ask_history, history_in};
ghost use Rattle.answers.specs.Values.{said_number};
ghost use Rattle.tables.specs.Tables.{LoadColumns, columns, load_columns};
ghost use Rattle.register.specs.View.{view};
ghost use Rattle.register_c.specs.Faces.{flat_shown};

use answers::{Said, of_number};
use ledger::Shown;
use refusals::{Refusal, number_of, place_of};
use register::Head;

// Number and place of the refusal, 0 and 0 where there is none; then the whole record.
#[repr(C)]
#[derive(Clone, Copy)]
pub struct RecordShown {
    pub number: u32,
    pub place: u32,
    pub day: u32,
    pub steps: u32,
    pub from: u32,
    pub until: u32,
    pub powers: [u16; 50],
    pub submitter: [u8; 16],
    pub ceder: [u8; 16],
    pub acquirer: [u8; 16],
    pub category: [u8; 6],
    pub status: u8,
}

// What a refusal shows.
const NOTHING: RecordShown = RecordShown {
    number: 0,
    place: 0,
    day: 0,
    steps: 0,
    from: 0,
    until: 0,
    powers: [0; 50],
    submitter: [0; 16],
    ceder: [0; 16],
    acquirer: [0; 16],
    category: [0; 6],
    status: 0,
};

impl From<Result<Shown, Refusal>> for RecordShown {
    ghost from_gives = { λ x y. y ≡ flat_shown x };

    fn from(answer: Result<Shown, Refusal>) -> RecordShown {
        match answer {
            Ok(shown) => {
                let note = shown.notification;
                let powers = note.powers;
                let key = note.key;
                let submitter = shown.submitter;
                let ceder = key.ceder;
                let acquirer = key.acquirer;
                let category = key.category;
                RecordShown {
                    number: 0,
                    place: 0,
                    day: key.day,
                    steps: note.steps,
                    from: shown.from,
                    until: shown.until,
                    powers,
                    submitter,
                    ceder,
                    acquirer,
                    category,
                    status: shown.status,
                }
            }
            Err(refusal) => RecordShown {
                number: number_of(refusal),
                place: place_of(refusal),
                ..NOTHING
            },
        }
    }
}

// Says an actor's own engagement at a step of a day.
#[unsafe(no_mangle)]
pub extern "C" fn register_head_engagement(
    head: Head,
    statuses: &[u8; 256],
    keys: &[u32; 256],
    marks: &[[u8; 4]; 256],
    rows: &[[u16; 50]; 256],
    numbers: &[u32; 64],
    loads: &[[u16; 50]; 64],
    actor: &[u8],
    category: &[u8],
    day: u32,
    step: u32,
) -> Said
    ensures { (ids approved : List ℕ) →
        let cols = columns statuses.now ids keys.now marks.now rows.now in
        let loaded = load_columns numbers.now approved loads.now in
        result ≡ said_number
        (ask_engagement (view head cols loaded) actor.now category.now day step) }
{
    let answer = head.engagement(
        statuses, keys, marks, rows, numbers, loads, actor, category, day, step,
    );
    of_number(answer)
}

// Shows a record by its id to an actor who is ceder or acquirer of it.
#[unsafe(no_mangle)]
pub extern "C" fn register_head_record(
    head: Head,
    statuses: &[u8; 256],
    ids: &[u32; 256],
    keys: &[u32; 256],
    marks: &[[u8; 4]; 256],
    rows: &[[u16; 50]; 256],
    asker: &[u8],
    id: u32,
) -> RecordShown
    ensures { (loads : LoadColumns) →
        let cols = columns statuses.now ids.now
        keys.now marks.now rows.now in
        result ≡ flat_shown (ask_record (view head cols loads) asker.now id) }
{
    let answer = head.record(statuses, ids, keys, marks, rows, asker, id);
    answer.into()
}

// Puts the ids of all records that an actor is a party to into a lent buffer, by day, earliest first, and within a day
// by id, lowest first, and says how many they are.
#[unsafe(no_mangle)]
pub extern "C" fn register_head_history(
    head: Head,
    ids: &[u32; 256],
    keys: &[u32; 256],
    actor: &[u8],
    out: &mut [u32],
) -> Said
    ensures { (statuses : List ℕ) (marks rows : List (List ℕ)) (loads : LoadColumns) →
        let ledger = view head (columns statuses ids.now keys.now marks rows) loads in
        (result ≡ said_number (ask_history ledger actor.now (length out.old)))
        × (out.new ≡ history_in ledger actor.now out.old) }
{
    let answer = head.history(ids, keys, actor, out);
    of_number(answer)
}
