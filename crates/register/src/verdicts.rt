// Judging a notification that was read: 20 to 36.
ghost use Rattle.std.specs.Prelude.{◌≡◌, ◌&&◌, List, ◌∷◌, ℕ, ◌+◌, ◌<◌, leb, ltb, length, replicate, IfOk};
ghost use Rattle.refusals.specs.Tests.{first_met, verdict};
ghost use Rattle.ledger.specs.Filing.{reach_of, far_of, party_tests, day_tests, load_test, step_tests, place_tests};
ghost use Rattle.tables.specs.Lent.{columns_of, loads_of};
ghost use Rattle.tables.specs.Tables.{Columns, LoadColumns, actors_in};
ghost use Rattle.judging.specs.Nets.{base};
ghost use Rattle.register.specs.View.{view};
ghost use Rattle.register.specs.Judging.{key_at, Placed, Judgeable, NettedAt, UnderListed};

use crate::Head;
use calendar::steps_of;
use judging::nets::{BASE, start_net};
use judging::passing::pass_records;
use judging::steps::step_verdict;
use ledger::{Actor, Entry};
use notification::Notification;
use refusals::trying::refuse_if;
use refusals::{Refusal, StateRefusal};
use tables::loads::{Loads, approved_of, last_of, load_number};
use tables::records::{RECORDS, Records, key_number};

// How many days after the clock's a filing through an entry may be for, and what refuses a later one.
fn reach_of(entry: Entry) -> u32
    ensures { result ≡ reach_of entry }
{
    match entry {
        Entry::SevenDays => 7,
    }
}

fn far_of(entry: Entry) -> StateRefusal
    ensures { result ≡ far_of entry }
{
    match entry {
        Entry::SevenDays => StateRefusal::DayFar,
    }
}

// Whether a day is more than so many days after another.
fn is_beyond(first: u32, reach: u32, day: u32) -> bool
    ensures { result ≡ ltb (first + reach) day }
{
    reach < day.saturating_sub(first)
}

// Where the actors and the category of a filing are enrolled, and its day.
#[derive(Clone, Copy)]
pub struct Places {
    pub ceder: u32,
    pub acquirer: u32,
    pub submitter: u32,
    pub category: u32,
    pub day: u32,
}

// Whether a day is in an actor's contract.
fn in_contract(e: Actor, day: u32) -> bool
    ensures { result ≡ (leb e.first day && leb day e.last) }
{
    (e.first <= day) & (day <= e.last)
}

impl Head {
    // Where the actors and the category of a filing are enrolled.
    pub(crate) fn places(self, submitter: &[u8], n: Notification) -> Places
        ensures { (columns : Columns) (loads : LoadColumns) →
            Placed (view self columns loads) submitter.now n result }
    {
        Places {
            ceder: self.actors.place(&n.key.ceder),
            acquirer: self.actors.place(&n.key.acquirer),
            submitter: self.actors.place(submitter),
            category: self.categories.place_of_six(n.key.category),
            day: n.key.day,
        }
    }

    // 20 to 25: who files, for whom, in which category.
    #[tactic(auto, unfolding(crate::specs::View::view, ledger::specs::Filing::party_tests))]
    fn enrolled(self, at: Places) -> Result<(), Refusal>
        ensures { (columns : Columns) (loads : LoadColumns) →
            result ≡ first_met (party_tests (view self columns loads) (key_at at) at.submitter) }
    {
        let n = self.actors.len();
        let by = at.submitter;
        refuse_if(!(at.ceder < n), StateRefusal::CederUnknown)?;
        refuse_if(!(at.acquirer < n), StateRefusal::AcquirerUnknown)?;
        refuse_if(!(by < n), StateRefusal::ActorUnknown)?;
        refuse_if(
            !(at.category < self.categories.len()),
            StateRefusal::CategoryUnknown,
        )?;
        refuse_if(
            !((by == at.ceder) | (by == at.acquirer)),
            StateRefusal::NotParty,
        )?;
        refuse_if(at.ceder == at.acquirer, StateRefusal::OneActor)?;
        Ok(())
    }

    // 26 to 30: the day and the contracts.
    #[tactic(auto, unfolding(crate::specs::View::view, ledger::specs::Filing::day_tests))]
    fn timely(self, entry: Entry, at: Places) -> Result<(), Refusal>
        requires { (at.ceder < length (actors_in self.actors))
            × (at.acquirer < length (actors_in self.actors)) }
        ensures { (columns : Columns) (loads : LoadColumns) →
            result ≡ first_met (day_tests (view self columns loads) entry (key_at at)) }
    {
        let day = at.day;
        let acquirer = self.actors.entries[at.acquirer as usize];
        let ceder = self.actors.entries[at.ceder as usize];
        let first = self.clock.first_counted(day);
        refuse_if(day < self.clock.day, StateRefusal::DayPast)?;
        refuse_if(
            is_beyond(self.clock.day, reach_of(entry), day),
            far_of(entry),
        )?;
        refuse_if(!(first < steps_of(day)), StateRefusal::NoStep)?;
        refuse_if(!in_contract(acquirer, day), StateRefusal::AcquirerContract)?;
        refuse_if(!in_contract(ceder, day), StateRefusal::CederContract)?;
        Ok(())
    }

    // What ceder and acquirer have at the counted steps, by their loads and the records; the places of those under the
    // key are listed.
    fn nets_of(
        self,
        ceder: &mut [u32; 50],
        acquirer: &mut [u32; 50],
        under: &mut [u8; 256],
        records: Records,
        rows: &[[u16; 50]; 64],
        ceders: Option<u32>,
        acquirers: Option<u32>,
        at: Places,
    ) -> u32
        requires { Judgeable self at × (ceder.old ≡ replicate 50 base) × (acquirer.old ≡ replicate 50 base) }
        ensures { ((ids : List ℕ) → NettedAt self
            (columns_of records.entry ids)
            rows.now ceders acquirers at
            (record { ceder = ceder.new; acquirer = acquirer.new }))
            × UnderListed self.records at records.entry.keys.now result under.new }
    {
        let day = at.day;
        let own = key_number(at.ceder, at.acquirer, at.category, day);
        let first = self.clock.first_counted(day);
        let until = steps_of(day);
        let n = self.records.min(RECORDS);
        start_net(&mut *ceder, rows, ceders);
        start_net(&mut *acquirer, rows, acquirers);
        pass_records(ceder, acquirer, under, records, n, own, first, until)
    }

    // 31 to 35: the ceder's load, and what ceder and acquirer would have at the counted steps. Where all pass, the
    // places of the records under the key are listed, and their number is given.
    fn steps_fit(
        self,
        under: &mut [u8; 256],
        records: Records,
        loads: Loads,
        at: Places,
        ps: &[u16; 50],
    ) -> Result<u32, Refusal>
        requires { Judgeable self at }
        ensures { ((ids : List ℕ) →
            let l = view self (columns_of records.entry ids) (loads_of loads.entry) in
            verdict result ≡ first_met (load_test l (key_at at) ∷ step_tests l (key_at at) ps.now))
            × IfOk result (λ count. UnderListed self.records at records.entry.keys.now count under.new) }
    {
        let day = at.day;
        let ceders = last_of(
            loads.numbers,
            self.loads,
            load_number(at.ceder, at.category, day),
        )
        .ok_or(StateRefusal::NoLoad)?;
        let acquirers = last_of(
            loads.numbers,
            self.loads,
            load_number(at.acquirer, at.category, day),
        );
        let mut ceder = [BASE; 50];
        let mut acquirer = [BASE; 50];
        let count = self.nets_of(
            &mut ceder,
            &mut acquirer,
            under,
            records,
            loads.rows,
            Some(ceders),
            acquirers,
            at,
        );
        step_verdict(
            &ceder,
            &acquirer,
            ps,
            approved_of(loads.approved, Some(ceders)),
            approved_of(loads.approved, acquirers),
            self.clock.first_counted(day),
            steps_of(day),
        )?;
        Ok(count)
    }

    // What a filing comes to, by its places: 20 to 36. Where it passes, the places of the records under its key are
    // listed, and their number is given.
    pub(crate) fn judge(
        self,
        under: &mut [u8; 256],
        records: Records,
        loads: Loads,
        entry: Entry,
        at: Places,
        ps: &[u16; 50],
    ) -> Result<u32, Refusal>
        ensures { ((ids : List ℕ) →
            verdict result ≡ first_met
            (place_tests (view self (columns_of records.entry ids) (loads_of loads.entry))
            entry (key_at at) at.submitter ps.now))
            × IfOk result (λ count. UnderListed self.records at records.entry.keys.now count under.new) }
    {
        self.enrolled(at)?;
        self.timely(entry, at)?;
        let count = self.steps_fit(under, records, loads, at, ps)?;
        refuse_if(!(self.records < RECORDS), StateRefusal::Full)?;
        Ok(count)
    }
}
