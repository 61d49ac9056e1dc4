// A record by its id, shown to an actor who is a party to it. Each column is a parameter of its own, as C lends them.
ghost use Rattle.std.specs.Prelude.{◌≡◌, List, ℕ, ◌<◌};
ghost use Rattle.notification.specs.Forms.{six_bytes, category_text};
ghost use Rattle.ledger.specs.Asking.{code_at, category_of, shown, ask_record};
ghost use Rattle.tables.specs.Lent.{columns_of};
ghost use Rattle.tables.specs.Tables.{Columns, LoadColumns, columns, record_in};
ghost use Rattle.register.specs.View.{view};

use crate::Head;
use calendar::steps_of;
use ledger::Shown;
use notification::{Key, Notification};
use recording::listing::{find_id, is_party};
use refusals::trying::refuse_if;
use refusals::{Refusal, StateRefusal};
use tables::records::Records;

// Six bytes of a category are those of its text.
fn six_of(text: [u8; 6]) -> [u8; 6]
    ensures { result ≡ six_bytes (category_text text) }
{
    text
}

impl Head {
    // The code of the actor at a place, or zeros.
    fn code_at(self, place: u32) -> [u8; 16]
        ensures { (columns : Columns) (loads : LoadColumns) → result ≡ code_at (view self columns loads) place }
    {
        if place < self.actors.len() {
            return self.actors.entries[place as usize].code;
        }
        [0; 16]
    }

    // The category at a place in six bytes, or zeros.
    fn category_at(self, place: u32) -> [u8; 6]
        ensures { (columns : Columns) (loads : LoadColumns) →
            result ≡ category_of (view self columns loads) place }
    {
        if place < self.categories.len() {
            return six_of(self.categories.entries[place as usize].text);
        }
        [0; 6]
    }

    // The record at a place, with its codes and its category.
    fn shown_at(self, records: Records, i: u32) -> Shown
        requires { i < 256 }
        ensures { (ids : List ℕ) (loads : LoadColumns) →
            let cols = columns_of records.entry ids in
            result ≡ shown (view self cols loads) (record_in cols i) }
    {
        let at = i as usize;
        let number = records.keys[at];
        let mark = records.marks[at];
        let row = records.rows[at];
        let day = number / 256;
        let key = Key {
            ceder: self.code_at(number / 8 % 8),
            acquirer: self.code_at(number % 8),
            category: self.category_at(number / 64 % 4),
            day,
        };
        let notification = Notification {
            key,
            steps: steps_of(day),
            powers: row,
        };
        Shown {
            submitter: self.code_at(u32::from(mark[0])),
            notification,
            status: records.statuses[at],
            from: u32::from(mark[1]),
            until: u32::from(mark[2]),
        }
    }

    // A record by its id, for an actor who is ceder or acquirer of it: 22, 40, 41.
    pub fn record(
        self,
        statuses: &[u8; 256],
        ids: &[u32; 256],
        keys: &[u32; 256],
        marks: &[[u8; 4]; 256],
        rows: &[[u16; 50]; 256],
        asker: &[u8],
        id: u32,
    ) -> Result<Shown, Refusal>
        ensures { (loads : LoadColumns) →
            result ≡ ask_record (view self
            (columns statuses.now ids.now keys.now marks.now
            rows.now)
            loads) asker.now id }
    {
        let a = self.actors.place(asker);
        refuse_if(!(a < self.actors.len()), StateRefusal::ActorUnknown)?;
        let i = find_id(ids, self.records, id).ok_or(StateRefusal::NoRecord)?;
        refuse_if(!is_party(keys[i as usize], a), StateRefusal::NotAsker)?;
        let records = Records {
            statuses,
            keys,
            marks,
            rows,
        };
        Ok(self.shown_at(records, i))
    }
}
