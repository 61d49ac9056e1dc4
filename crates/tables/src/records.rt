// The records, in lent columns: of each its status, its id, its key, its mark (submitter, from-step, until-step) and
// its row of powers.
ghost use Rattle.std.specs.Prelude.{◌≡◌, ◌<◌};
ghost use Rattle.tables.specs.Tables.{key_number};

// The places for records.
pub const RECORDS: u32 = 256;

// The statuses, by their letters: bytes and no enum, as C lends them in a column and reads them in answers.
pub const CREATED: u8 = b'C';

pub const ANSWERED: u8 = b'A';

pub const DELETED: u8 = b'S';

pub const VALIDATED: u8 = b'V';

pub const UPDATED: u8 = b'P';

pub const OBSOLETE: u8 = b'O';

// The records' columns but for their ids, as they are read.
#[derive(Clone, Copy)]
pub struct Records<'a> {
    pub statuses: &'a [u8; 256],
    pub keys: &'a [u32; 256],
    pub marks: &'a [[u8; 4]; 256],
    pub rows: &'a [[u16; 50]; 256],
}

// Ceder, acquirer, category and day of a key as one number: places and days in their ranges, so that no two keys have
// the same.
pub fn key_number(ceder: u32, acquirer: u32, category: u32, day: u32) -> u32
    requires { (ceder < 8) × (acquirer < 8) × (category < 4) × (day < 36525) }
    ensures { (result ≡ key_number ceder acquirer category day) × (result < 9350400) }
{
    day * 256 + category * 64 + ceder * 8 + acquirer
}
