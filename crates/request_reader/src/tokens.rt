// The tokens of an object, one after another: each function is told a place and gives the place after what it looks
// for, where that stands there. A text and a place in it go as two parameters, and not as the rest of the text, since
// what stands before a place is looked at as well (`layouts`).
ghost use Rattle.std.specs.Prelude.{ℕ, Bool, true, false, ◌≡◌, [], ◌∷◌, ◌≤◌, length, drop, IfSome};
ghost use Rattle.reader.specs.Walking.{starts_with};
ghost use Rattle.request.specs.Tokens.{is_blank, is};
ghost use Rattle.request_reader.specs.Walking.{Past, Passed, RunTo, WalkSays, OpenSays, is_mark, is_quoted, framed};

use crate::words::same_text;
use lists::bytes::byte_at;

// What was read at a place, and the place after it.
#[derive(Clone, Copy)]
pub struct Found<T> {
    pub value: T,
    pub next: usize,
}

// Whether a byte is a blank, a tab, CR or LF.
fn is_blank(b: u8) -> bool
    ensures { result ≡ is_blank b }
{
    (b == b' ') | (b == b'\t') | (b == b'\r') | (b == b'\n')
}

// The first place from a place on where no byte stands that passes a test.
pub(crate) fn run_to<F: Fn(u8) -> bool>(s: &[u8], from: usize, test: F) -> usize
    requires { (from ≤ length s.now) × ((b : ℕ) → F.pre test b) }
    ensures { (p : ℕ → Bool) → p 0 ≡ false → ((b : ℕ) (r : Bool) → F.post test b r → r ≡ p b)
        → RunTo p s.now from result }
{
    let rest = &s[from..];
    from + rest.iter().position(|b| !test(*b)).unwrap_or(rest.len())
}

// The first place from a place on where no blank stands.
pub(crate) fn past_blanks(s: &[u8], at: usize) -> usize
    requires { at ≤ length s.now }
    ensures past { Past s.now at result }
    ensures passed { Passed [] s.now at result }
{
    // A space is tried first, as the one that most often stands there.
    run_to(s, at, |b| b == b' ' || is_blank(b))
}

// Whether a text stands at a place.
#[inline(always)]
pub(crate) fn stands(s: &[u8], at: usize, text: &[u8]) -> bool
    requires { (at ≤ length s.now) × (1 ≤ length text.now) }
    ensures { result ≡ starts_with text.now (drop at s.now) }
{
    if s.len() - at < text.len() {
        return false;
    }
    same_text(s, at, text)
}

// The place after the token that is a byte by itself.
#[inline(always)]
pub(crate) fn after_mark(s: &[u8], at: usize, b: u8) -> Option<usize>
    requires { (at ≤ length s.now) × (is_mark b ≡ true) }
    ensures walked { WalkSays (is (b ∷ []) ∷ []) s.now at result }
    ensures passed { IfSome result (λ next. Passed ((b ∷ []) ∷ []) s.now at next) }
{
    let from = past_blanks(s, at);
    if byte_at(s, from) == b {
        Some(from + 1)
    } else {
        None
    }
}

// The place after the token that is a quoted text.
#[inline(always)]
pub(crate) fn after_text(s: &[u8], at: usize, text: &[u8]) -> Option<usize>
    requires { (at ≤ length s.now) × (is_quoted text.now ≡ true) }
    ensures walked { WalkSays (is text.now ∷ []) s.now at result }
    ensures passed { IfSome result (λ next. Passed (text.now ∷ []) s.now at next) }
{
    let from = past_blanks(s, at);
    if stands(s, from, text) {
        Some(from + text.len())
    } else {
        None
    }
}

// Whether so many bytes stand between quotes at a place.
pub(crate) fn is_framed(s: &[u8], from: usize, n: usize) -> bool
    requires { (from ≤ length s.now) × (n ≤ 20) }
    ensures { result ≡ framed s.now from n }
{
    if s.len() - from < n + 2 {
        return false;
    }
    (s[from] == b'"') & (s[from + n + 1] == b'"')
}

// The first place of a member's value after its name: past a colon.
#[inline(always)]
pub(crate) fn value_at(s: &[u8], at: usize) -> Option<usize>
    requires { at ≤ length s.now }
    ensures opened { OpenSays (is (58 ∷ []) ∷ []) s.now at result }
    ensures passed { IfSome result (λ from. Passed ((58 ∷ []) ∷ []) s.now at from) }
{
    let colon = after_mark(s, at, b':')?;
    Some(past_blanks(s, colon))
}

// The first place of a member's value: past its name and a colon.
pub(crate) fn value_from(s: &[u8], at: usize, name: &[u8]) -> Option<usize>
    requires { (at ≤ length s.now) × (is_quoted name.now ≡ true) }
    ensures { OpenSays (is name.now ∷ is (58 ∷ []) ∷ []) s.now at result }
{
    let named = after_text(s, at, name)?;
    value_at(s, named)
}
