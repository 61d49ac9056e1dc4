// What a notification to write is refused by: a wrong form (9), a value outside its range (10), every power 0 (8).
ghost use Rattle.std.specs.Prelude.{◌≡◌, ◌≤◌, ltb, length, take, drop};
ghost use Rattle.lists.specs.Searches.{every};
ghost use Rattle.notification.specs.Forms.{category_text, power_end, all_zero};
ghost use Rattle.notification.specs.Writing.{formed, ranged};

use calendar::{DAYS, steps_of};
use notification::forms::{is_category, is_code};
use notification::{Key, Notification};

// The least number that is no power.
const POWER_END: u16 = 10000;

// How many of a category's six bytes are its text.
pub fn category_length(category: [u8; 6]) -> usize
    ensures { (take result category ≡ category_text category) × (result ≡ length (category_text category))
        × (result ≤ length category) }
{
    if category[5] == 0 { 5 } else { 6 }
}

// Whether codes and category have their forms.
pub fn is_formed(key: Key) -> bool
    ensures { result ≡ formed key }
{
    let n = category_length(key.category);
    is_code(&key.ceder) & is_code(&key.acquirer) & is_category(&key.category[..n])
}

// Whether each power is below 10,000. Each is looked at, so that many are compared at once.
fn all_powers(powers: &[u16]) -> bool
    ensures { result ≡ every (λ p. ltb p power_end) powers.now }
{
    let mut good = true;
    for p in powers {
        good &= *p < POWER_END;
    }
    good
}

// Whether each power from a place on is 0.
#[tactic(auto, unfolding(notification::specs::Forms::all_zero))]
fn zeros_from(powers: &[u16], from: usize) -> bool
    ensures { result ≡ all_zero (drop from powers.now) }
{
    powers.iter().skip(from).all(|p| *p == 0)
}

// Whether day, count of steps and powers are in their ranges.
pub fn is_ranged(n: Notification) -> bool
    ensures { result ≡ ranged n }
{
    let day = n.key.day;
    (day < DAYS)
        & (n.steps == steps_of(day))
        & all_powers(&n.powers)
        & zeros_from(&n.powers, n.steps as usize)
}

// Whether every power is 0.
pub fn is_zero(n: Notification) -> bool
    ensures { result ≡ all_zero n.powers }
{
    zeros_from(&n.powers, 0)
}
