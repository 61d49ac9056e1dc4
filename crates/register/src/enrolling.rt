// A fresh register; enrolling an actor or a category; advancing the clock.
ghost use Rattle.std.specs.Prelude.{◌≡◌};
ghost use Rattle.refusals.specs.Tests.{first_met};
ghost use Rattle.ledger.specs.Call.{enrol_actor, enrol_category, advance};
ghost use Rattle.ledger.specs.Ledger.{fresh};
ghost use Rattle.ledger.specs.Calls.{actor_tests, category_tests};
ghost use Rattle.tables.specs.Tables.{Columns, LoadColumns};
ghost use Rattle.register.specs.View.{view, lent};
ghost use Rattle.register.specs.Written.{fresh_register, seen, does};

use crate::{Fresh, Head, Reply};
use calendar::{Clock, DAYS};
use ledger::{Actor, Answer};
use notification::forms::{in_bytes, is_category, is_code};
use refusals::trying::refuse_if;
use refusals::{InputRefusal, Refusal, StateRefusal};
use tables::actors::{ACTORS, Actors};
use tables::categories::{CATEGORIES, Categories, Category};

impl Head {
    // A register that holds nothing, with its clock at day 0, minute 0.
    pub fn fresh() -> Fresh
        ensures { (result ≡ fresh_register)
            × ((columns : Columns) (loads : LoadColumns) → view result.head columns loads ≡ fresh) }
    {
        let nobody = Actor {
            code: [0; 16],
            first: 0,
            last: 0,
        };
        let none = Category { text: [0; 6] };
        let head = Head {
            clock: Clock::fresh(),
            actors: Actors {
                count: 0,
                entries: [nobody; 8],
            },
            categories: Categories {
                count: 0,
                entries: [none; 4],
            },
            loads: 0,
            records: 0,
        };
        Fresh {
            head,
            statuses: [0; 256],
            ids: [0; 256],
        }
    }

    // A call that is refused leaves the head as it was.
    pub(crate) fn refused(self, r: Refusal) -> Reply
        ensures { result ≡ record { head = self; answer = Err r } }
    {
        Reply {
            head: self,
            answer: Err(r),
        }
    }

    // What enrolling an actor comes to: 9, 10, 37, 36.
    #[tactic(auto, unfolding(crate::specs::View::view, ledger::specs::Calls::actor_tests))]
    fn actor_verdict(self, code: &[u8], first: u32, last: u32) -> Result<(), Refusal>
        ensures { (columns : Columns) (loads : LoadColumns) →
            result ≡ first_met (actor_tests (view self columns loads) code.now first last) }
    {
        let n = self.actors.len();
        let at = self.actors.place(code);
        let in_range = (first < DAYS) & (last < DAYS) & (first <= last);
        refuse_if(!is_code(code), InputRefusal::Form)?;
        refuse_if(!in_range, InputRefusal::Range)?;
        refuse_if(at < n, StateRefusal::There)?;
        refuse_if(!(n < ACTORS), StateRefusal::Full)?;
        Ok(())
    }

    // Enrols an actor with a contract from a first to a last day, and answers how many actors there now are.
    pub fn enrol_actor(self, code: &[u8], first: u32, last: u32) -> Reply
        ensures { (columns : Columns) (loads : LoadColumns) →
            seen (lent result.head columns loads) result.answer
            ≡ does (lent self columns loads) (enrol_actor code.now first last) }
    {
        if let Err(r) = self.actor_verdict(code, first, last) {
            return self.refused(r);
        }
        let actor = Actor {
            code: in_bytes(code),
            first,
            last,
        };
        let actors = self.actors.with(actor);
        Reply {
            head: Head { actors, ..self },
            answer: Ok(Answer::Held(actors.count)),
        }
    }

    // What enrolling a category comes to: 9, 37, 36.
    #[tactic(auto, unfolding(crate::specs::View::view, ledger::specs::Calls::category_tests))]
    fn category_verdict(self, text: &[u8]) -> Result<(), Refusal>
        ensures { (columns : Columns) (loads : LoadColumns) →
            result ≡ first_met (category_tests (view self columns loads) text.now) }
    {
        let n = self.categories.len();
        let at = self.categories.place(text);
        refuse_if(!is_category(text), InputRefusal::Form)?;
        refuse_if(at < n, StateRefusal::There)?;
        refuse_if(!(n < CATEGORIES), StateRefusal::Full)?;
        Ok(())
    }

    // Enrols a category, and answers how many there now are.
    pub fn enrol_category(self, text: &[u8]) -> Reply
        ensures { (columns : Columns) (loads : LoadColumns) →
            seen (lent result.head columns loads) result.answer
            ≡ does (lent self columns loads) (enrol_category text.now) }
    {
        if let Err(r) = self.category_verdict(text) {
            return self.refused(r);
        }
        let category = Category {
            text: in_bytes(text),
        };
        let categories = self.categories.with(category);
        Reply {
            head: Head { categories, ..self },
            answer: Ok(Answer::Held(categories.count)),
        }
    }

    // Advances the clock to a later moment, or to the same one.
    pub fn advance(self, day: u32, minute: u32) -> Reply
        ensures { (columns : Columns) (loads : LoadColumns) →
            seen (lent result.head columns loads) result.answer ≡ does (lent self columns loads) (advance day minute) }
    {
        match self.clock.advanced(Clock { day, minute }) {
            Err(r) => self.refused(r),
            Ok(clock) => Reply {
                head: Head { clock, ..self },
                answer: Ok(Answer::Moved),
            },
        }
    }
}
