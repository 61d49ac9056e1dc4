// The calls of demand 3's list, and a fresh register. Each column is a parameter of its own, as C lends them.
ghost use Rattle.std.specs.Prelude.{◌≡◌};
ghost use Rattle.ledger.specs.Call.{csv, json, enrol_actor, enrol_category, load, file, advance};
ghost use Rattle.ledger.specs.Ledger.{fresh};
ghost use Rattle.tables.specs.Tables.{Columns, LoadColumns, columns, load_columns};
ghost use Rattle.register.specs.View.{view, lent};
ghost use Rattle.register.specs.Written.{fresh_register, does};
ghost use Rattle.register.specs.Told.{told, tells};

use ledger::Entry;
use register::turning::{Turn, turned};
use register::{Fresh, Head};

// A register that holds nothing, with its clock at day 0, minute 0: its head, and the statuses and ids of its records.
#[unsafe(no_mangle)]
pub extern "C" fn register_head_fresh() -> Fresh
    ensures { (result ≡ fresh_register)
        × ((columns : Columns) (loads : LoadColumns) → view result.head columns loads ≡ fresh) }
{
    Head::fresh()
}

// Enrols an actor with a contract from a first to a last day, and says how many actors there now are.
#[unsafe(no_mangle)]
pub extern "C" fn register_head_enrol_actor(head: Head, code: &[u8], first: u32, last: u32) -> Turn
    ensures { (columns : Columns) (loads : LoadColumns) →
        tells (lent result.head columns loads) result.said
        ≡ told (does (lent head columns loads) (enrol_actor code.now first last)) }
{
    let reply = head.enrol_actor(code, first, last);
    turned(reply)
}

// Enrols a category, and says how many there now are.
#[unsafe(no_mangle)]
pub extern "C" fn register_head_enrol_category(head: Head, text: &[u8]) -> Turn
    ensures { (columns : Columns) (loads : LoadColumns) →
        tells (lent result.head columns loads) result.said
        ≡ told (does (lent head columns loads) (enrol_category text.now)) }
{
    let reply = head.enrol_category(text);
    turned(reply)
}

// Loads an actor's approved power and powers for a category and a day, and says how many loads there now are.
#[unsafe(no_mangle)]
pub extern "C" fn register_head_load(
    head: Head,
    numbers: &mut [u32; 64],
    approved: &mut [u16; 64],
    loads: &mut [[u16; 50]; 64],
    actor: &[u8],
    category: &[u8],
    day: u32,
    most: u32,
    powers: &[u32],
) -> Turn
    ensures { let before = load_columns numbers.old approved.old loads.old in
        let after = load_columns numbers.new approved.new loads.new in
        ((columns : Columns) →
        tells (lent result.head columns after) result.said
        ≡ told (does (lent head columns before)
        (load actor.now category.now day most powers.now))) }
{
    let reply = head.load(numbers, approved, loads, actor, category, day, most, powers);
    turned(reply)
}

// Files a notification by its submitter's code, its file's name and its body, and says id, status and from-step.
#[unsafe(no_mangle)]
pub extern "C" fn register_head_file(
    head: Head,
    statuses: &mut [u8; 256],
    ids: &mut [u32; 256],
    keys: &mut [u32; 256],
    marks: &mut [[u8; 4]; 256],
    rows: &mut [[u16; 50]; 256],
    numbers: &[u32; 64],
    approved: &[u16; 64],
    loads: &[[u16; 50]; 64],
    submitter: &[u8],
    name: &[u8],
    body: &[u8],
) -> Turn
    ensures { let before = columns statuses.old ids.old
        keys.old marks.old rows.old in
        let after = columns statuses.new ids.new
        keys.new marks.new rows.new in
        let loaded = load_columns numbers.now approved.now loads.now in
        tells (lent result.head after loaded) result.said
        ≡ told (does (lent head before loaded)
        (file Entry.SevenDays submitter.now (csv name.now body.now))) }
{
    let reply = head.file(
        statuses, ids, keys, marks, rows, numbers, approved, loads, submitter, name, body,
    );
    turned(reply)
}

// Files a notification by its submitter's code and the object of a request, and says id, status and from-step.
#[unsafe(no_mangle)]
pub extern "C" fn register_head_file_object(
    head: Head,
    statuses: &mut [u8; 256],
    ids: &mut [u32; 256],
    keys: &mut [u32; 256],
    marks: &mut [[u8; 4]; 256],
    rows: &mut [[u16; 50]; 256],
    numbers: &[u32; 64],
    approved: &[u16; 64],
    loads: &[[u16; 50]; 64],
    submitter: &[u8],
    body: &[u8],
) -> Turn
    ensures { let before = columns statuses.old ids.old
        keys.old marks.old rows.old in
        let after = columns statuses.new ids.new
        keys.new marks.new rows.new in
        let loaded = load_columns numbers.now approved.now loads.now in
        tells (lent result.head after loaded) result.said
        ≡ told (does (lent head before loaded)
        (file Entry.SevenDays submitter.now (json body.now))) }
{
    let reply = head.file_object(
        statuses, ids, keys, marks, rows, numbers, approved, loads, submitter, body,
    );
    turned(reply)
}

// Advances the clock.
#[unsafe(no_mangle)]
pub extern "C" fn register_head_advance(head: Head, day: u32, minute: u32) -> Turn
    ensures { (columns : Columns) (loads : LoadColumns) →
        tells (lent result.head columns loads) result.said
        ≡ told (does (lent head columns loads) (advance day minute)) }
{
    let reply = head.advance(day, minute);
    turned(reply)
}
