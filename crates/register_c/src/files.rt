// The notification file: its reader and its writer.
ghost use Rattle.std.specs.Prelude.{◌≡◌, length};
ghost use Rattle.notification.specs.Reading.{read_file};
ghost use Rattle.notification.specs.Writing.{name_of, body_of, write_verdict, write_answer, written};
ghost use Rattle.reader.specs.InHand.{in_hand, begun, fed, ended};
ghost use Rattle.register_c.specs.Faces.{flat_note, flat_refused, flat_of, note_to_write, flat_written};

use notification::{FileLengths, Key, Notification};
use reader::pieces::FileReader;
use reader::reading::read_file;
use refusals::{Refusal, number_of, place_of};
use writer::writing::write_file;

// Number and place of the refusal, 0 and 0 where there is none; then the notification.
#[repr(C)]
#[derive(Clone, Copy)]
pub struct FileRead {
    pub number: u32,
    pub place: u32,
    pub day: u32,
    pub steps: u32,
    pub powers: [u16; 50],
    pub ceder: [u8; 16],
    pub acquirer: [u8; 16],
    pub category: [u8; 6],
}

// Number and place of the refusal, 0 and 0 where there is none; then the lengths of name and body.
#[repr(C)]
#[derive(Clone, Copy)]
pub struct FileWritten {
    pub number: u32,
    pub place: u32,
    pub name: usize,
    pub body: usize,
}

// What a reading that is refused has for its notification.
const BLANK: Notification = Notification {
    key: Key {
        ceder: [0; 16],
        acquirer: [0; 16],
        category: [0; 6],
        day: 0,
    },
    steps: 0,
    powers: [0; 50],
};

// A notification behind a refusal's number and place.
pub(crate) fn flat(number: u32, place: u32, note: Notification) -> FileRead
    ensures { result ≡ flat_note number place note }
{
    let powers = note.powers;
    let key = note.key;
    let ceder = key.ceder;
    let acquirer = key.acquirer;
    let category = key.category;
    FileRead {
        number,
        place,
        day: key.day,
        steps: note.steps,
        powers,
        ceder,
        acquirer,
        category,
    }
}

// The same of a refusal.
pub(crate) fn flat_refused(refusal: Refusal) -> FileRead
    ensures { result ≡ flat_refused refusal }
{
    flat(number_of(refusal), place_of(refusal), BLANK)
}

impl From<Result<Notification, Refusal>> for FileRead {
    ghost from_gives = { λ x y. y ≡ flat_of x };

    fn from(read: Result<Notification, Refusal>) -> FileRead {
        match read {
            Ok(note) => flat(0, 0, note),
            Err(refusal) => flat_refused(refusal),
        }
    }
}

// The notification of a flat struct.
impl From<FileRead> for Notification {
    ghost from_gives = { λ x n. n ≡ note_to_write x };

    fn from(x: FileRead) -> Notification {
        let ceder = x.ceder;
        let acquirer = x.acquirer;
        let category = x.category;
        let powers = x.powers;
        let key = Key {
            ceder,
            acquirer,
            category,
            day: x.day,
        };
        Notification {
            key,
            steps: x.steps,
            powers,
        }
    }
}

// The lengths that were written, or the refusal.
impl From<Result<FileLengths, Refusal>> for FileWritten {
    ghost from_gives = { λ x y. y ≡ flat_written x };

    fn from(written: Result<FileLengths, Refusal>) -> FileWritten {
        match written {
            Ok(lengths) => FileWritten {
                number: 0,
                place: 0,
                name: lengths.name,
                body: lengths.body,
            },
            Err(refusal) => FileWritten {
                number: number_of(refusal),
                place: place_of(refusal),
                name: 0,
                body: 0,
            },
        }
    }
}

// Reads a file.
#[unsafe(no_mangle)]
pub extern "C" fn notification_read(name: &[u8], body: &[u8]) -> FileRead
    ensures { result ≡ flat_of (read_file name.now body.now) }
{
    read_file(name, body).into()
}

// Begins a file by its name; its body comes in pieces.
#[unsafe(no_mangle)]
pub extern "C" fn notification_begin(name: &[u8]) -> FileReader
    ensures { in_hand result ≡ begun name.now }
{
    FileReader::begin(name)
}

// Feeds a piece of the body: each is handed in once, cut anywhere.
#[unsafe(no_mangle)]
pub extern "C" fn notification_feed(reader: FileReader, piece: &[u8]) -> FileReader
    ensures { in_hand result ≡ fed (in_hand reader) piece.now }
{
    reader.feed(piece)
}

// Ends a file: what its name and all its pieces joined are read as.
#[unsafe(no_mangle)]
pub extern "C" fn notification_end(reader: FileReader) -> FileRead
    ensures { result ≡ flat_of (ended (in_hand reader)) }
{
    reader.end().into()
}

// Writes a notification's name and body into two lent buffers, the rest of both untouched, and gives their lengths. A
// notification that is refused leaves both as they are.
#[unsafe(no_mangle)]
pub extern "C" fn notification_write(n: FileRead, name: &mut [u8], body: &mut [u8]) -> FileWritten
    ensures { let note = note_to_write n in
        let verdict = write_verdict note (length name.old) (length body.old) in
        (result ≡ flat_written (write_answer note (length name.old) (length body.old)))
        × (name.new ≡ written verdict (name_of note.key) name.old)
        × (body.new ≡ written verdict (body_of note) body.old) }
{
    let note = Notification::from(n);
    let answer = write_file(note, name, body);
    answer.into()
}
