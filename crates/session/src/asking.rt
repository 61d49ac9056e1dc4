// The lines that only ask: E and R, and those of no known form.
ghost use Rattle.std.specs.Prelude.{◌≡◌, List, ℕ};
ghost use Rattle.ledger.specs.Asking.{ask_engagement};
ghost use Rattle.answers.specs.Values.{said_number};
ghost use Rattle.script.specs.Spans.{first_text, second_text, asked};
ghost use Rattle.session.specs.Lines.{ask_step};
ghost use Rattle.session.specs.Stores.{ledger_but};

use crate::store::Store;
use answers::{Said, of_number, of_shown, refused};
use script::parts::{first_text, second_text};
use script::reading::{Kind, Line};

// What a line of no known form is refused by: a number of the program's own, as no call of the register refuses by it.
pub(crate) const NO_CALL: u32 = 11;

// What a line says that asks for an engagement, by what was read of it.
pub fn engaged(store: &Store, line: &[u8], read: Line) -> Said
    ensures { (ids approved : List ℕ) →
        result
        ≡ said_number (ask_engagement (ledger_but store.now ids approved)
        (first_text line.now read) (second_text line.now read) read.day read.number) }
{
    let actor = first_text(line, read);
    let category = second_text(line, read);
    let answer = store.head.engagement(
        &store.statuses,
        &store.keys,
        &store.marks,
        &store.rows,
        &store.numbers,
        &store.loads,
        actor,
        category,
        read.day,
        read.number,
    );
    of_number(answer)
}

// What a line says that only asks, by what was read of it.
pub fn ask(store: &Store, line: &[u8], read: Line) -> Said
    ensures { (approved : List ℕ) →
        result ≡ ask_step (ledger_but store.now store.now.ids approved) (asked line.now read) }
{
    let kind = read.kind;
    // A match, as in `answer`.
    match kind {
        Kind::Engagement => engaged(store, line, read),
        Kind::RecordOf => {
            let answer = store.head.record(
                &store.statuses,
                &store.ids,
                &store.keys,
                &store.marks,
                &store.rows,
                first_text(line, read),
                read.number,
            );
            of_shown(answer)
        }
        _ => refused(NO_CALL),
    }
}
