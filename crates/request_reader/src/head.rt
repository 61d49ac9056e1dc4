// The members before the steps: an object's key, its origin and when it was submitted. A text and a place go as two
// parameters, as in `tokens`.
ghost use Rattle.std.specs.Prelude.{◌≡◌, true, ◌≤◌, length, MatchOption, IfSome};
ghost use Rattle.request_reader.specs.Heads.{PartiesAt, TermsAt, PlainParties, PlainDates};
ghost use Rattle.request_reader.specs.Heads.{party_tests, term_tests, begin_tests};
ghost use Rattle.request_reader.specs.Walking.{Missing, WalkSays};

use crate::members::{category_length, category_member, code_member, moment_member};
use crate::moments::moment_of;
use crate::tokens::{after_mark, after_text, stands};
use crate::words::{eight_at, same_text};
use notification::forms::{in_bytes, is_category, is_code};
use request::Moment;

// The last second of a day.
const LAST_SECOND: u32 = 86399;

// The three codes, and the place after their members.
#[derive(Clone, Copy)]
pub struct Parties {
    pub ceder: [u8; 16],
    pub acquirer: [u8; 16],
    pub origin: [u8; 16],
    pub at: usize,
}

// The category and the two dates, and the place after their members.
#[derive(Clone, Copy)]
pub struct Terms {
    pub category: [u8; 6],
    pub day: Moment,
    pub submitted: Moment,
    pub at: usize,
}

// Whether a body begins as an object without blanks does, around its three codes.
fn is_plain(s: &[u8]) -> bool
    ensures { result ≡ true → PlainParties s.now }
{
    if s.len() < 128 {
        return false;
    }
    if !same_text(s, 0, b"{\"CodeEicActeurCedant\":\"") {
        return false;
    }
    if !(eight_at(s, 40, b"\",\"CodeE", 0)
        & eight_at(s, 48, b"icActeur", 0)
        & eight_at(s, 56, b"Acquereu", 0)
        & eight_at(s, 60, b"ereur\":\"", 0))
    {
        return false;
    }
    if !(eight_at(s, 84, b"\",\"CodeE", 0)
        & eight_at(s, 92, b"icActeur", 0)
        & eight_at(s, 100, b"Origine\"", 0)
        & eight_at(s, 102, b"igine\":\"", 0))
    {
        return false;
    }
    (s[126] == b'"') & (s[127] == b',')
}

// The three codes, where nothing stands between the tokens.
fn plain_parties(s: &[u8]) -> Option<Parties>
    ensures { IfSome result (λ p. PartiesAt s.now p) }
{
    if !is_plain(s) {
        return None;
    }
    let ceder = &s[24..40];
    let acquirer = &s[68..84];
    let origin = &s[110..126];
    if !(is_code(ceder) & is_code(acquirer) & is_code(origin)) {
        return None;
    }
    Some(Parties {
        ceder: in_bytes(ceder),
        acquirer: in_bytes(acquirer),
        origin: in_bytes(origin),
        at: 128,
    })
}

// The three codes, whatever blanks stand between the tokens.
fn spaced_parties(s: &[u8]) -> Option<Parties>
    ensures { MatchOption result (Missing party_tests s.now 0) (λ p. PartiesAt s.now p) }
{
    let open = after_mark(s, 0, b'{')?;
    let cedant = after_text(s, open, b"\"CodeEicActeurCedant\"")?;
    let first = code_member(s, cedant)?;
    let acquereur = after_text(s, first.next, b"\"CodeEicActeurAcquereur\"")?;
    let second = code_member(s, acquereur)?;
    let origine = after_text(s, second.next, b"\"CodeEicActeurOrigine\"")?;
    let third = code_member(s, origine)?;
    let ceder = first.value;
    let acquirer = second.value;
    let origin = third.value;
    Some(Parties {
        ceder,
        acquirer,
        origin,
        at: third.next,
    })
}

// `{` and the members of the three codes.
pub(crate) fn take_parties(s: &[u8]) -> Option<Parties>
    ensures { MatchOption result (Missing party_tests s.now 0) (λ p. PartiesAt s.now p) }
{
    plain_parties(s).or_else(|| spaced_parties(s))
}

// The members of the two dates without blanks, from the quote after the category on.
fn plain_dates(s: &[u8], from: usize, category: [u8; 6]) -> Option<Terms>
    requires { from ≤ length s.now }
    ensures { IfSome result (λ t. PlainDates s.now from category t) }
{
    if s.len() - from < 84 {
        return None;
    }
    let t = &s[from..from + 84];
    if !(same_text(t, 0, b"\",\"DateExploitation\":\"")
        & same_text(t, 42, b"\",\"DateSoumission\":\"")
        & same_text(t, 82, b"\","))
    {
        return None;
    }
    let day = moment_of(&t[22..42])?;
    let submitted = moment_of(&t[62..82])?;
    if day.second != 0 {
        return None;
    }
    Some(Terms {
        category,
        day,
        submitted,
        at: from + 84,
    })
}

// The members of the category and of the two dates without blanks.
fn plain_terms(s: &[u8], at: usize) -> Option<Terms>
    requires { at ≤ length s.now }
    ensures { IfSome result (λ t. TermsAt s.now at t) }
{
    if s.len() - at < 32 {
        return None;
    }
    if !same_text(s, at, b"\"NomCategorieEngagement\":\"") {
        return None;
    }
    let from = at + 26;
    let n = category_length(s, from - 1);
    let category = &s[from..from + n];
    if !is_category(category) {
        return None;
    }
    plain_dates(s, from + n, in_bytes(category))
}

// The members of the category and of the two dates, whatever blanks stand between the tokens.
fn spaced_terms(s: &[u8], at: usize) -> Option<Terms>
    requires { at ≤ length s.now }
    ensures { MatchOption result (Missing term_tests s.now at) (λ t. TermsAt s.now at t) }
{
    let categorie = after_text(s, at, b"\"NomCategorieEngagement\"")?;
    let first = category_member(s, categorie)?;
    let exploitation = after_text(s, first.next, b"\"DateExploitation\"")?;
    let second = moment_member(s, exploitation, 0)?;
    let soumission = after_text(s, second.next, b"\"DateSoumission\"")?;
    let third = moment_member(s, soumission, LAST_SECOND)?;
    let category = first.value;
    Some(Terms {
        category,
        day: second.value,
        submitted: third.value,
        at: third.next,
    })
}

// The members of the category and of the two dates.
pub(crate) fn take_terms(s: &[u8], at: usize) -> Option<Terms>
    requires { at ≤ length s.now }
    ensures { MatchOption result (Missing term_tests s.now at) (λ t. TermsAt s.now at t) }
{
    plain_terms(s, at).or_else(|| spaced_terms(s, at))
}

// The status and the beginning of the steps: `"Statut" : "C", "Chronique" : [`.
pub(crate) fn series_from(s: &[u8], at: usize) -> Option<usize>
    requires { at ≤ length s.now }
    ensures { WalkSays begin_tests s.now at result }
{
    if stands(s, at, b"\"Statut\":\"C\",\"Chronique\":[") {
        return Some(at + 26);
    }
    let statut = after_text(s, at, b"\"Statut\"")?;
    let first_colon = after_mark(s, statut, b':')?;
    let created = after_text(s, first_colon, b"\"C\"")?;
    let comma = after_mark(s, created, b',')?;
    let chronique = after_text(s, comma, b"\"Chronique\"")?;
    let second_colon = after_mark(s, chronique, b':')?;
    after_mark(s, second_colon, b'[')
}
