// The lines that are calls of demand 3's list: T, A, C, L, and F with its file.
ghost use Rattle.std.specs.Prelude.{◌≡◌};
ghost use Rattle.register.specs.Written.{does};
ghost use Rattle.register.specs.Told.{told, tells};
ghost use Rattle.script.specs.Lines.{file_of};
ghost use Rattle.script.specs.Spans.{first_text, second_text, powers_of, call_of};
ghost use Rattle.session.specs.Lines.{line_step};
ghost use Rattle.session.specs.Stores.{register_in};

use crate::asking::NO_CALL;
use crate::store::Store;
use answers::{Said, refused};
use notification::Notification;
use refusals::Refusal;
use script::parts::{first_text, powers_of, second_text};
use script::reading::{CallKind, Line};

// What the file that a line names is read as; none where it can't be read.
pub type File = Option<Result<Notification, Refusal>>;

// A call, by what was read of its line.
pub(crate) fn called(store: &mut Store, call: CallKind, line: &[u8], read: Line) -> Said
    ensures { tells (register_in store.new) result
        ≡ told (does (register_in store.old)
        (call_of call (first_text line.now read) (second_text line.now read) read.day read.number
        (powers_of line.now read))) }
{
    // A match, as in `answer`: each call has its own arguments.
    match call {
        CallKind::Advance => {
            let reply = store.head.advance(read.day, read.number);
            store.settle(reply)
        }
        CallKind::EnrolActor => {
            let code = first_text(line, read);
            let reply = store.head.enrol_actor(code, read.day, read.number);
            store.settle(reply)
        }
        CallKind::EnrolCategory => {
            let text = first_text(line, read);
            let reply = store.head.enrol_category(text);
            store.settle(reply)
        }
        CallKind::Load => {
            let powers = powers_of(line, read);
            let given = powers.numbers;
            let reply = store.head.load(
                &mut store.numbers,
                &mut store.approved,
                &mut store.loads,
                first_text(line, read),
                second_text(line, read),
                read.day,
                read.number,
                &given[..powers.count],
            );
            store.settle(reply)
        }
    }
}

// A filing, by what was read of its line, and by the file that it names.
pub fn filed(store: &mut Store, line: &[u8], read: Line, file: File) -> Said
    ensures { tells (register_in store.new) result
        ≡ line_step (register_in store.old) file
        (file_of (first_text line.now read) (second_text line.now read)) }
{
    let Some(reading) = file else {
        return refused(NO_CALL);
    };
    let reply = store.head.file_reading(
        &mut store.statuses,
        &mut store.ids,
        &mut store.keys,
        &mut store.marks,
        &mut store.rows,
        &store.numbers,
        &store.approved,
        &store.loads,
        first_text(line, read),
        reading,
    );
    store.settle(reply)
}
