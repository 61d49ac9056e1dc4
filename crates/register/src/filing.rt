// Filing: a form is read; what was read is judged and recorded. Each column that is written is a parameter of its own,
// as C lends them.
ghost use Rattle.std.specs.Prelude.{◌≡◌};
ghost use Rattle.ledger.specs.Call.{csv, json, read_form, file};
ghost use Rattle.ledger.specs.Filing.{status_by};
ghost use Rattle.tables.specs.Tables.{LoadColumns, columns, load_columns};
ghost use Rattle.register.specs.View.{lent};
ghost use Rattle.register.specs.Judging.{key_at, Fileable, UnderListed, files_at};
ghost use Rattle.register.specs.Written.{seen, does, does_note, does_reading};

use crate::verdicts::Places;
use crate::{Head, Reply};
use calendar::steps_of;
use ledger::{Answer, Entry};
use notification::Notification;
use reader::reading::read_file;
use recording::changing::change_all;
use recording::pairing::is_paired;
use refusals::trying::refuse_if;
use refusals::{InputRefusal, Refusal};
use request_reader::reading::read_object;
use tables::actors::is_text;
use tables::loads::Loads;
use tables::records::{CREATED, Records, VALIDATED, key_number};

// The status of a new record: validated where it is paired, else created.
fn status_of(paired: bool) -> u8
    ensures { result ≡ status_by paired }
{
    if paired { VALIDATED } else { CREATED }
}

// What the object that a submitter files is read as: 42, 5 to 8, and 43 where its origin isn't the submitter.
fn read_from(submitter: &[u8], body: &[u8]) -> Result<Notification, Refusal>
    ensures { result ≡ read_form submitter.now (json body.now) }
{
    let request = read_object(body)?;
    refuse_if(!is_text(request.origin, submitter), InputRefusal::Origin)?;
    Ok(request.notification)
}

impl Head {
    // Records a notification that passes: the records under its key change, and one more is made.
    fn record_note(
        self,
        statuses: &mut [u8; 256],
        ids: &mut [u32; 256],
        keys: &mut [u32; 256],
        marks: &mut [[u8; 4]; 256],
        rows: &mut [[u16; 50]; 256],
        under: &[u8; 256],
        count: u32,
        at: Places,
        ps: [u16; 50],
    ) -> Reply
        requires { Fileable self at × UnderListed self.records at keys.old count under.now }
        ensures { (loads : LoadColumns) →
            seen (lent result.head
            (columns statuses.new ids.new keys.new marks.new rows.new)
            loads) result.answer
            ≡ files_at (lent self
            (columns statuses.old ids.old keys.old marks.old
            rows.old)
            loads) (key_at at) at.submitter ps }
    {
        let day = at.day;
        let by = at.submitter;
        let own = key_number(at.ceder, at.acquirer, at.category, day);
        let clock = self.clock;
        let first = clock.first_counted(day);
        let until = steps_of(day);
        let n = self.records;
        let records = Records {
            statuses: &*statuses,
            keys: &*keys,
            marks: &*marks,
            rows: &*rows,
        };
        let paired = is_paired(records, under, count, by, own, ps);
        change_all(
            &mut *statuses,
            &*keys,
            &mut *marks,
            &*rows,
            under,
            count,
            paired,
            clock,
            by,
            own,
            ps,
        );
        let status = status_of(paired);
        let id = n + 1;
        let place = n as usize;
        statuses[place] = status;
        ids[place] = id;
        keys[place] = own;
        marks[place] = [by as u8, first as u8, until as u8, 0];
        rows[place] = ps;
        Reply {
            head: Head {
                records: n + 1,
                ..self
            },
            answer: Ok(Answer::Filed(id, status, first)),
        }
    }

    // Files a notification that was read: it is judged and recorded.
    pub fn file_note(
        self,
        statuses: &mut [u8; 256],
        ids: &mut [u32; 256],
        keys: &mut [u32; 256],
        marks: &mut [[u8; 4]; 256],
        rows: &mut [[u16; 50]; 256],
        numbers: &[u32; 64],
        approved: &[u16; 64],
        loads: &[[u16; 50]; 64],
        entry: Entry,
        submitter: &[u8],
        n: Notification,
    ) -> Reply
        ensures { seen (lent result.head
            (columns statuses.new ids.new keys.new marks.new rows.new)
            (load_columns numbers.now approved.now loads.now)) result.answer
            ≡ does_note (lent self
            (columns statuses.old ids.old keys.old marks.old
            rows.old)
            (load_columns numbers.now approved.now loads.now))
            entry submitter.now n }
    {
        let at = self.places(submitter, n);
        let ps = n.powers;
        let mut under = [0u8; 256];
        let records = Records {
            statuses: &*statuses,
            keys: &*keys,
            marks: &*marks,
            rows: &*rows,
        };
        let loads = Loads {
            numbers,
            approved,
            rows: loads,
        };
        match self.judge(&mut under, records, loads, entry, at, &ps) {
            Err(r) => self.refused(r),
            Ok(count) => {
                self.record_note(statuses, ids, keys, marks, rows, &under, count, at, ps)
            }
        }
    }

    // Files a form by its submitter's code and what it was read as.
    pub fn file_reading(
        self,
        statuses: &mut [u8; 256],
        ids: &mut [u32; 256],
        keys: &mut [u32; 256],
        marks: &mut [[u8; 4]; 256],
        rows: &mut [[u16; 50]; 256],
        numbers: &[u32; 64],
        approved: &[u16; 64],
        loads: &[[u16; 50]; 64],
        submitter: &[u8],
        reading: Result<Notification, Refusal>,
    ) -> Reply
        ensures { seen (lent result.head
            (columns statuses.new ids.new keys.new marks.new rows.new)
            (load_columns numbers.now approved.now loads.now)) result.answer
            ≡ does_reading (lent self
            (columns statuses.old ids.old keys.old marks.old
            rows.old)
            (load_columns numbers.now approved.now loads.now))
            Entry.SevenDays submitter.now reading }
    {
        match reading {
            Err(r) => self.refused(r),
            Ok(n) => self.file_note(
                statuses,
                ids,
                keys,
                marks,
                rows,
                numbers,
                approved,
                loads,
                Entry::SevenDays,
                submitter,
                n,
            ),
        }
    }

    // Files a notification file by its submitter's code, its name and its body.
    pub fn file(
        self,
        statuses: &mut [u8; 256],
        ids: &mut [u32; 256],
        keys: &mut [u32; 256],
        marks: &mut [[u8; 4]; 256],
        rows: &mut [[u16; 50]; 256],
        numbers: &[u32; 64],
        approved: &[u16; 64],
        loads: &[[u16; 50]; 64],
        submitter: &[u8],
        name: &[u8],
        body: &[u8],
    ) -> Reply
        ensures { seen (lent result.head
            (columns statuses.new ids.new keys.new marks.new rows.new)
            (load_columns numbers.now approved.now loads.now)) result.answer
            ≡ does (lent self
            (columns statuses.old ids.old keys.old marks.old
            rows.old)
            (load_columns numbers.now approved.now loads.now))
            (file Entry.SevenDays submitter.now (csv name.now body.now)) }
    {
        let reading = read_file(name, body);
        self.file_reading(
            statuses, ids, keys, marks, rows, numbers, approved, loads, submitter, reading,
        )
    }

    // Files a notification by its submitter's code and the object of a request.
    pub fn file_object(
        self,
        statuses: &mut [u8; 256],
        ids: &mut [u32; 256],
        keys: &mut [u32; 256],
        marks: &mut [[u8; 4]; 256],
        rows: &mut [[u16; 50]; 256],
        numbers: &[u32; 64],
        approved: &[u16; 64],
        loads: &[[u16; 50]; 64],
        submitter: &[u8],
        body: &[u8],
    ) -> Reply
        ensures { seen (lent result.head
            (columns statuses.new ids.new keys.new marks.new rows.new)
            (load_columns numbers.now approved.now loads.now)) result.answer
            ≡ does (lent self
            (columns statuses.old ids.old keys.old marks.old
            rows.old)
            (load_columns numbers.now approved.now loads.now))
            (file Entry.SevenDays submitter.now (json body.now)) }
    {
        let reading = read_from(submitter, body);
        self.file_reading(
            statuses, ids, keys, marks, rows, numbers, approved, loads, submitter, reading,
        )
    }
}
