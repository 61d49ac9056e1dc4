// The key in a name and in a header: ceder, acquirer, date and category, parted by a byte.
ghost use Rattle.std.specs.Prelude.{◌≡◌};
ghost use Rattle.notification.specs.Reading.{is_header};
ghost use Rattle.reader.specs.Parts.{key_read, name_read};

use calendar::day_of;
use notification::Key;
use notification::forms::{in_bytes, is_category, is_code};

// The key in `ceder.acquirer.date.category`, parted by a byte, where each part is valid.
fn key_in(s: &[u8], by: u8) -> Option<Key>
    ensures { result ≡ key_read by s.now }
{
    let n = s.len();
    if n < 48 {
        return None;
    }
    if 49 < n {
        return None;
    }
    let ceder = &s[0..16];
    let acquirer = &s[17..33];
    let category = &s[43..];
    let parted = (s[16] == by) & (s[33] == by) & (s[42] == by);
    if !(parted & is_code(ceder) & is_code(acquirer) & is_category(category)) {
        return None;
    }
    let day = day_of(&s[34..42])?;
    Some(Key {
        ceder: in_bytes(ceder),
        acquirer: in_bytes(acquirer),
        category: in_bytes(category),
        day,
    })
}

// The key of a name: it stands between `NER_` and `.csv`.
pub(crate) fn name_key(name: &[u8]) -> Option<Key>
    ensures { result ≡ name_read name.now }
{
    let rest = name.strip_prefix(b"NER_")?;
    let key = rest.strip_suffix(b".csv")?;
    key_in(key, b'_')
}

// Whether a line is a header: a key and `;`.
pub(crate) fn is_header(line: &[u8]) -> bool
    ensures { result ≡ is_header line.now }
{
    match line.strip_suffix(b";") {
        Some(key) => key_in(key, b';').is_some(),
        None => false,
    }
}
