// A line answered.
ghost use Rattle.std.specs.Prelude.{◌≡◌};
ghost use Rattle.register.specs.Told.{tells};
ghost use Rattle.script.specs.Spans.{asked};
ghost use Rattle.session.specs.Lines.{line_step};
ghost use Rattle.session.specs.Stores.{register_in};

use crate::asking::ask;
use crate::calling::{File, called, filed};
use crate::store::Store;
use answers::Said;
use script::reading::{Kind, Line};

// Answers a line, by what was read of it, and by the file that it names, where it names one.
pub fn answer(store: &mut Store, line: &[u8], read: Line, file: File) -> Said
    ensures { tells (register_in store.new) result ≡ line_step (register_in store.old) file (asked line.now read) }
{
    let kind = read.kind;
    // A match and no table of closures: each kind has its own arguments.
    match kind {
        Kind::Calls(call) => called(store, call, line, read),
        Kind::Files => filed(store, line, read, file),
        _ => ask(&*store, line, read),
    }
}
