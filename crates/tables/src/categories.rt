// The enrolled categories, in the order of their enrolment.
ghost use Rattle.std.specs.Prelude.{◌≡◌, ◌++◌, ◌∷◌, [], ◌<◌, length};
ghost use Rattle.lists.specs.Searches.{same};
ghost use Rattle.notification.specs.Forms.{category_text};
ghost use Rattle.ledger.specs.Ledger.{category_at};
ghost use Rattle.tables.specs.More.{more_categories};
ghost use Rattle.tables.specs.Tables.{categories_in};

use crate::comparing::same_text;

// The places for categories.
pub const CATEGORIES: u32 = 4;

// A category in six bytes; one without C ends with a 0.
#[repr(C)]
#[derive(Clone, Copy)]
pub struct Category {
    pub text: [u8; 6],
}

// How many categories there are, and which; places past the count mean nothing. C holds them, as it does the actors.
#[repr(C)]
#[derive(Clone, Copy)]
pub struct Categories {
    pub count: u32,
    pub entries: [Category; 4],
}

// Whether six bytes stand for this text.
fn stands_for(c: [u8; 6], s: &[u8]) -> bool
    ensures { result ≡ same (category_text c) s.now }
{
    if c[5] == 0 {
        return same_text(&c[..5], s);
    }
    same_text(&c, s)
}

impl Categories {
    // How many categories are enrolled.
    pub fn len(self) -> u32
        ensures { result ≡ length (categories_in self) }
    {
        self.count.min(CATEGORIES)
    }

    // The place of a category; the number of categories where there is none, as in the ledger's `category_at`.
    pub fn place(self, s: &[u8]) -> u32
        ensures { result ≡ category_at (categories_in self) s.now }
    {
        let n = self.count.min(CATEGORIES) as usize;
        self.entries[..n]
            .iter()
            .position(|z| stands_for(z.text, s))
            .unwrap_or(n) as u32
    }

    // The place of a category in six bytes.
    pub fn place_of_six(self, c: [u8; 6]) -> u32
        ensures { result ≡ category_at (categories_in self) (category_text c) }
    {
        if c[5] == 0 {
            return self.place(&c[..5]);
        }
        self.place(&c)
    }

    // One category more. The enrolment that passes has tried whether there is a place.
    pub fn with(mut self, z: Category) -> Categories
        requires { self.count < 4 }
        ensures { (categories_in result ≡ categories_in self ++ (category_text z.text ∷ []))
            × (result ≡ more_categories self z) }
    {
        self.entries[self.count as usize] = z;
        self.count += 1;
        self
    }
}
