// Texts and rows, compared.
ghost use Rattle.std.specs.Prelude.{◌≡◌, true, ◌&&◌, fold};
ghost use Rattle.std.specs.List.{zip};
ghost use Rattle.lists.specs.Searches.{same};

// Whether the items of two slices are equal, pair by pair, as far as both go. Each pair is looked at, so that many are
// compared at once: `==` on slices ends at the first that differs.
pub fn equal_pairs<T: PartialEq>(a: &[T], b: &[T]) -> bool
    ensures { result ≡ fold (λ good p. good && T.eq p.0 p.1) true (zip a.now b.now) }
{
    a.iter().zip(b).fold(true, |good, (x, y)| good & (x == y))
}

// Whether two texts are the same.
pub(crate) fn same_text(a: &[u8], b: &[u8]) -> bool
    ensures { result ≡ same a.now b.now }
{
    a.len() == b.len() && equal_pairs(a, b)
}
