// The enrolled actors, in the order of their enrolment.
ghost use Rattle.std.specs.Prelude.{◌≡◌, ◌++◌, ◌∷◌, [], ◌<◌, length};
ghost use Rattle.lists.specs.Searches.{same};
ghost use Rattle.ledger.specs.Ledger.{actor_at};
ghost use Rattle.tables.specs.More.{more_actors};
ghost use Rattle.tables.specs.Tables.{actors_in};

use crate::comparing::same_text;
use ledger::Actor;

// The places for actors.
pub const ACTORS: u32 = 8;

// How many actors there are, and who; places past the count mean nothing. It stands in C's layout, so that it is no
// generic table, which the categories could share.
#[repr(C)]
#[derive(Clone, Copy)]
pub struct Actors {
    pub count: u32,
    pub entries: [Actor; 8],
}

// Whether a code is this text.
pub fn is_text(code: [u8; 16], s: &[u8]) -> bool
    ensures { result ≡ same code s.now }
{
    same_text(&code, s)
}

impl Actors {
    // How many actors are enrolled.
    pub fn len(self) -> u32
        ensures { result ≡ length (actors_in self) }
    {
        self.count.min(ACTORS)
    }

    // The place of the actor with this code; the number of actors where there is none, and no Option: so it is in the
    // ledger's `actor_at`, which the contract names.
    pub fn place(self, code: &[u8]) -> u32
        ensures { result ≡ actor_at (actors_in self) code.now }
    {
        let n = self.count.min(ACTORS) as usize;
        self.entries[..n]
            .iter()
            .position(|a| is_text(a.code, code))
            .unwrap_or(n) as u32
    }

    // One actor more. The enrolment that passes has tried whether there is a place.
    pub fn with(mut self, a: Actor) -> Actors
        requires { self.count < 8 }
        ensures { (actors_in result ≡ actors_in self ++ (a ∷ [])) × (result ≡ more_actors self a) }
    {
        self.entries[self.count as usize] = a;
        self.count += 1;
        self
    }
}
