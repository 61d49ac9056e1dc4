// Loading an actor's powers for a category and a day. Each column is a parameter of its own, as C lends them.
ghost use Rattle.std.specs.Prelude.{◌≡◌, List, ℕ, leb};
ghost use Rattle.lists.specs.Searches.{every};
ghost use Rattle.refusals.specs.Tests.{first_met};
ghost use Rattle.ledger.specs.Call.{load};
ghost use Rattle.ledger.specs.Calls.{load_ranged, load_tests};
ghost use Rattle.tables.specs.Tables.{Columns, load_columns};
ghost use Rattle.register.specs.View.{view, lent};
ghost use Rattle.register.specs.Written.{seen, does};

use crate::{Head, Reply};
use calendar::{DAYS, steps_of};
use ledger::Answer;
use refusals::trying::refuse_if;
use refusals::{InputRefusal, Refusal, StateRefusal};
use tables::loads::{LOADS, in_places, last_of, load_number};

// The least power that is none.
pub const POWER_END: u32 = 10000;

// Whether no power is above the approved one. Each is looked at, so that many are compared at once.
fn none_above(powers: &[u32], most: u32) -> bool
    ensures { result ≡ every (λ p. leb p most) powers.now }
{
    let mut good = true;
    for p in powers {
        good &= *p <= most;
    }
    good
}

// Whether day, approved power and powers are in their ranges.
#[tactic(auto, unfolding(ledger::specs::Calls::load_ranged))]
fn is_ranged(day: u32, most: u32, powers: &[u32]) -> bool
    ensures { result ≡ load_ranged day most powers.now }
{
    day < DAYS
        && most < POWER_END
        && powers.len() == steps_of(day) as usize
        && none_above(powers, most)
}

impl Head {
    // What a load comes to: 10, 22, 23, 39, 37, 36.
    #[tactic(auto, unfolding(crate::specs::View::view, ledger::specs::Calls::load_tests))]
    fn load_verdict(
        self,
        numbers: &[u32; 64],
        actor: &[u8],
        category: &[u8],
        day: u32,
        most: u32,
        powers: &[u32],
    ) -> Result<(), Refusal>
        ensures { (columns : Columns) (approved : List ℕ) (rows : List (List ℕ)) →
            result ≡ first_met (load_tests (view self columns (load_columns numbers.now approved rows))
            actor.now category.now day most powers.now) }
    {
        let a = self.actors.place(actor);
        let z = self.categories.place(category);
        refuse_if(!is_ranged(day, most, powers), InputRefusal::Range)?;
        refuse_if(!(a < self.actors.len()), StateRefusal::ActorUnknown)?;
        refuse_if(!(z < self.categories.len()), StateRefusal::CategoryUnknown)?;
        refuse_if(!self.clock.loadable(day), StateRefusal::LoadDay)?;
        let there = last_of(numbers, self.loads, load_number(a, z, day)).is_some();
        refuse_if(there, StateRefusal::There)?;
        refuse_if(!(self.loads < LOADS), StateRefusal::Full)?;
        Ok(())
    }

    // Loads an actor's approved power and powers for a category and a day, and answers how many loads there now are.
    pub fn load(
        self,
        numbers: &mut [u32; 64],
        approved: &mut [u16; 64],
        loads: &mut [[u16; 50]; 64],
        actor: &[u8],
        category: &[u8],
        day: u32,
        most: u32,
        powers: &[u32],
    ) -> Reply
        ensures { (columns : Columns) →
            seen (lent result.head columns
            (load_columns numbers.new approved.new loads.new)) result.answer
            ≡ does (lent self columns
            (load_columns numbers.old approved.old loads.old))
            (load actor.now category.now day most powers.now) }
    {
        if let Err(r) = self.load_verdict(&*numbers, actor, category, day, most, powers) {
            return self.refused(r);
        }
        let number = load_number(
            self.actors.place(actor),
            self.categories.place(category),
            day,
        );
        let at = self.loads as usize;
        let row = in_places(powers);
        numbers[at] = number;
        approved[at] = most as u16;
        loads[at] = row;
        let count = self.loads + 1;
        Reply {
            head: Head {
                loads: count,
                ..self
            },
            answer: Ok(Answer::Held(count)),
        }
    }
}
