// The read-only calls but for a record by its id: an actor's engagement at a step, and its history. Each column is a
// parameter of its own, as C lends them.
ghost use Rattle.std.specs.Prelude.{◌≡◌, List, ℕ, ◌-◌, length};
ghost use Rattle.refusals.specs.Tests.{first_met};
ghost use Rattle.ledger.specs.Ledger.{actor_at, category_at};
ghost use Rattle.ledger.specs.Asking.{engagement_tests, ask_engagement, ask_history, history_in};
ghost use Rattle.tables.specs.Tables.{Columns, LoadColumns, columns, load_columns, actors_in, categories_in};
ghost use Rattle.register.specs.View.{view};

use crate::Head;
use calendar::steps_of;
use recording::adding::totals_of;
use recording::listing::{count_ids, put_ids};
use refusals::trying::refuse_if;
use refusals::{InputRefusal, Refusal, StateRefusal};
use tables::loads::{last_of, load_number, row_at};
use tables::records::{RECORDS, Records};

impl Head {
    // What the engagement call comes to, by the places of its actor and its category: 22, 23, 10.
    #[tactic(auto, unfolding(crate::specs::View::view, ledger::specs::Asking::engagement_tests))]
    fn engagement_verdict(self, a: u32, z: u32, day: u32, step: u32) -> Result<(), Refusal>
        ensures { (columns : Columns) (loads : LoadColumns) (actor category : List ℕ) →
            a ≡ actor_at (actors_in self.actors) actor → z ≡ category_at (categories_in self.categories) category →
            result ≡ first_met (engagement_tests (view self columns loads) actor category day step) }
    {
        refuse_if(!(a < self.actors.len()), StateRefusal::ActorUnknown)?;
        refuse_if(!(z < self.categories.len()), StateRefusal::CategoryUnknown)?;
        refuse_if(!(step < steps_of(day)), InputRefusal::Range)?;
        Ok(())
    }

    // An actor's own engagement at a step of a day.
    pub fn engagement(
        self,
        statuses: &[u8; 256],
        keys: &[u32; 256],
        marks: &[[u8; 4]; 256],
        rows: &[[u16; 50]; 256],
        numbers: &[u32; 64],
        loads: &[[u16; 50]; 64],
        actor: &[u8],
        category: &[u8],
        day: u32,
        step: u32,
    ) -> Result<u32, Refusal>
        ensures { (ids approved : List ℕ) →
            result ≡ ask_engagement (view self
            (columns statuses.now ids keys.now marks.now rows.now)
            (load_columns numbers.now approved loads.now))
            actor.now category.now day step }
    {
        let a = self.actors.place(actor);
        let z = self.categories.place(category);
        self.engagement_verdict(a, z, day, step)?;
        let row = row_at(loads, last_of(numbers, self.loads, load_number(a, z, day)));
        let records = Records {
            statuses,
            keys,
            marks,
            rows,
        };
        let n = self.records.min(RECORDS);
        let totals = totals_of(records, n, day * 4 + z, a, step);
        let gained = u32::from(row[step as usize]) + totals.gained;
        Ok(gained.saturating_sub(totals.given))
    }

    // An actor's history: the ids of all records that it is a party to, by day and within a day by id, into a lent
    // buffer, and how many they are: 22, 36. No filing is for a day more than seven after the clock's: the day after
    // those stands for the earliest of the 128 days that end with them.
    pub fn history(
        self,
        ids: &[u32; 256],
        keys: &[u32; 256],
        actor: &[u8],
        out: &mut [u32],
    ) -> Result<u32, Refusal>
        ensures { (statuses : List ℕ) (marks rows : List (List ℕ)) (loads : LoadColumns) →
            (result ≡ ask_history (view self (columns statuses ids.now keys.now marks rows) loads)
            actor.now (length out.old))
            × (out.new
            ≡ history_in (view self (columns statuses ids.now keys.now marks rows) loads)
            actor.now out.old) }
    {
        let a = self.actors.place(actor);
        let n = self.records.min(RECORDS);
        let count = count_ids(keys, n, a);
        refuse_if(!(a < self.actors.len()), StateRefusal::ActorUnknown)?;
        refuse_if(out.len() < count as usize, StateRefusal::Full)?;
        put_ids(keys, ids, n, a, self.clock.day % 128 + 8, out);
        Ok(count)
    }
}
