// A file whose body comes in pieces (document 02, K4): cut in two at every place, byte by byte, and in a thousand
// random ways.
ghost use Rattle.std.specs.Prelude.{◌≤◌};

use crate::printing::sum_of;
use notification::Notification;
use reader::pieces::FileReader;
use refusals::Refusal;

// The number after another in a row that looks like chance.
fn next(seed: u32) -> u32 {
    ((u64::from(seed) * 48271 + 11) % 2147483647) as u32
}

// What a file is read as, its body cut at a place, with an empty piece in between.
fn in_two(name: &[u8], body: &[u8], at: usize) -> Result<Notification, Refusal> {
    let (first, second) = body.split_at(at.min(body.len()));
    FileReader::begin(name)
        .feed(first)
        .feed(b"")
        .feed(second)
        .end()
}

// The length of a piece: by chance up to so many bytes and one more.
fn piece_length(row: u32, most: u32) -> usize
    ensures { (1 ≤ result) × (result ≤ 1001) }
{
    (row % 1000) as usize % (most as usize + 1) + 1
}

// The same in pieces of such lengths: the way says how long they are at most, and which row of numbers is taken.
fn in_pieces(name: &[u8], body: &[u8], way: u16) -> Result<Notification, Refusal> {
    let mut reader = FileReader::begin(name);
    let mut row = u32::from(way) + 1;
    let mut rest = body;
    // By hand: how long a piece is, is drawn each turn, and no iterator of the library cuts by such lengths.
    while !rest.is_empty() {
        row = next(row);
        let length = piece_length(row, u32::from(way) % 90);
        let (piece, after) = rest.split_at(length.min(rest.len()));
        reader = reader.feed(piece);
        rest = after;
    }
    reader.end()
}

// Whether a file is read as what a sum says, however its body is cut: in two at each place, and in a thousand ways, of
// which the first is byte by byte.
pub(crate) fn is_alike(name: &[u8], body: &[u8], whole: u32) -> bool {
    (0..body.len()).all(|at| sum_of(in_two(name, body, at)) == whole)
        && (0..1000).all(|way| sum_of(in_pieces(name, body, way)) == whole)
}
