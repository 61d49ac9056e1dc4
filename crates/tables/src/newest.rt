// The newest of the numbers in a column, which is searched from its end.
ghost use Rattle.std.specs.Prelude.{◌≡◌, true, ◌≤◌, ◌+◌, ◌-◌, min, eqb, get_or};
ghost use Rattle.tables.specs.Passing.{bits_from, last_below};

// Whether none of four in a row is this number. Each is looked at, so that the four are compared at once.
fn none_of_four<const N: usize>(keys: &[u32; N], i: usize, number: u32) -> bool
    requires { i + 4 ≤ N }
    ensures { result ≡ true → bits_from (λ k. eqb (get_or keys.now k 0) number) i 4 ≡ 0 }
{
    !(((keys[i] == number) | (keys[i + 1] == number))
        | ((keys[i + 2] == number) | (keys[i + 3] == number)))
}

// Whether there are four numbers below i, and none of the last four is this one.
fn passes_four<const N: usize>(keys: &[u32; N], i: usize, number: u32) -> bool
    requires { i ≤ N }
    ensures { result ≡ true →
        (4 ≤ i) × (bits_from (λ k. eqb (get_or keys.now k 0) number) (i - 4) 4 ≡ 0) }
{
    if i < 4 {
        return false;
    }
    none_of_four(keys, i - 4, number)
}

// The newest of the first n places with this number.
pub fn newest<const N: usize>(keys: &[u32; N], n: u32, number: u32) -> Option<u32>
    ensures { result ≡ last_below (λ i. eqb (get_or keys.now i 0) number) (min n N) }
{
    let mut end = (n as usize).min(N);
    // By index: four are passed at once, from an end that need be no multiple of four.
    while passes_four(keys, end, number) {
        end -= 4;
    }
    for i in (0..end).rev() {
        if keys[i] == number {
            return Some(i as u32);
        }
    }
    None
}
