// A file whose body comes in pieces (document 02, K4): begun with its name, fed piece by piece, ended with a verdict.
ghost use Rattle.std.specs.Prelude.{true, ◌≡◌, [], ◌∷◌, ◌++◌, ◌+◌, ◌-◌, ◌≤◌, length, take, drop};
ghost use Rattle.lists.specs.Searches.{byte_from};
ghost use Rattle.notification.specs.Writing.{header_of};
ghost use Rattle.notification.specs.Reading.{name_key, is_name};
ghost use Rattle.reader.specs.Folding.{with_powers};
ghost use Rattle.reader.specs.InHand.{
  in_hand,
  fresh_with,
  begun,
  length_with,
  walked,
  gone_on,
  continued,
  fed,
  key_of,
  ended,
};

use crate::keys::name_key;
use crate::lines::{FileTally, NO_LINE, take_lines};
use crate::reading::conclude;
use crate::tally::{NO_FAULT, Tally};
use calendar::steps_of;
use lists::bytes::byte_from;
use notification::forms::in_bytes;
use notification::{Key, Notification};
use refusals::trying::refuse_if;
use refusals::{InputRefusal, Refusal};

// The most bytes that a body has.
const MOST_BYTES: u32 = 4096;

// A body that is too long is one byte too long.
const TOO_MANY: u32 = 4097;

// The bytes of the shortest and of the longest header's line, with its LF.
const SHORTEST_HEADER: u32 = 50;

const LONGEST_HEADER: u32 = 51;

// The most bytes that are held of the line in hand.
const HELD: u32 = 64;

// The most steps that a day has.
const STEPS: u32 = 50;

// A file being read. Of the name: the day, its steps, how many bytes the header's line has with its LF (0 where the
// name is none), and these bytes. Of the body: how many bytes came, what the whole lines have shown, the powers, and
// the beginning of the line in hand, with how many bytes it has. C holds it: so lengths stand beside bytes.
#[repr(C)]
#[derive(Clone, Copy)]
pub struct FileReader {
    pub day: u32,
    pub steps: u32,
    pub named: u32,
    pub length: u32,
    pub tally: FileTally,
    pub powers: [u16; 50],
    pub held: u32,
    pub line: [u8; 64],
    pub header: [u8; 51],
}

// A line in hand that ends: its bytes and LF, and how many it has without LF, since there is no heap for a text.
#[derive(Clone, Copy)]
struct WholeLine {
    text: [u8; 65],
    length: u32,
}

// How many bytes came, with those of a piece.
fn length_with(before: u32, piece: &[u8]) -> u32
    ensures { result ≡ length_with before piece.now }
{
    let total = (before as usize).saturating_add(piece.len());
    total.min(TOO_MANY as usize) as u32
}

// The header's line that a name asks for, with its LF.
fn header_of(name: &[u8]) -> [u8; 51]
    requires { is_name name.now ≡ true }
    ensures { take (length name.now - 6) result ≡ header_of (name_key name.now) ++ 10 ∷ [] }
{
    let parts = &name[4..52];
    let mut header = [0u8; 51];
    header[..48].copy_from_slice(parts);
    header[16] = b';';
    header[33] = b';';
    header[42] = b';';
    header[48] = b';';
    header[49] = b'\n';
    if name.len() == 57 {
        header[48] = name[52];
        header[49] = b';';
        header[50] = b'\n';
    }
    header
}

// A file of which nothing was read yet.
fn fresh(header: [u8; 51], named: u32, day: u32) -> FileReader
    ensures { in_hand result ≡ fresh_with (take named header) day }
{
    let steps = Tally {
        lines: 0,
        fault: NO_FAULT,
        place: 0,
    };
    let tally = FileTally {
        header: NO_LINE,
        steps,
    };
    FileReader {
        day,
        steps: steps_of(day),
        named,
        length: 0,
        tally,
        powers: [0; 50],
        held: 0,
        line: [0; 64],
        header,
    }
}

// The first bytes from a place on, as many as are held.
fn first_bytes(s: &[u8], from: usize) -> [u8; 64]
    requires { from ≤ length s.now }
    ensures { take (length s.now - from) result ≡ take 64 (drop from s.now) }
{
    let n = (s.len() - from).min(HELD as usize);
    let first = &s[from..from + n];
    let mut line = [0u8; 64];
    line[..n].copy_from_slice(first);
    line
}

// The line in hand with the bytes of a piece up to a place, as many as are held, and LF.
fn whole_line(line: [u8; 64], held: u32, piece: &[u8], end: usize) -> WholeLine
    requires { end ≤ length piece.now }
    ensures text_value { take (result.length + 1) result.text ≡ gone_on (take held line) piece.now end ++ 10 ∷ [] }
    ensures length_value { (result.length ≡ length (gone_on (take held line) piece.now end)) × (result.length ≤ 64) }
{
    let n = held.min(HELD) as usize;
    let more = end.min(HELD as usize - n);
    let before = &line[..n];
    let after = &piece[..more];
    let mut text = [b'\n'; 65];
    text[..n].copy_from_slice(before);
    text[n..n + more].copy_from_slice(after);
    WholeLine {
        text,
        length: (n + more) as u32,
    }
}

// The key that a header's line and a day give.
fn key_of(header: &[u8], day: u32) -> Key
    requires { (50 ≤ length header.now) × (length header.now ≤ 51) }
    ensures { result ≡ key_of header.now day }
{
    let n = header.len();
    Key {
        ceder: in_bytes(&header[0..16]),
        acquirer: in_bytes(&header[17..33]),
        category: in_bytes(&header[43..n - 2]),
        day,
    }
}

impl FileReader {
    // Begins a file by its name.
    pub fn begin(name: &[u8]) -> FileReader
        ensures { in_hand result ≡ begun name.now }
    {
        match name_key(name) {
            Some(key) => fresh(header_of(name), name.len() as u32 - 6, key.day),
            None => fresh([0; 51], 0, 0),
        }
    }

    // The lines of a piece from a place on, where a line begins, after what the lines before it have shown.
    fn walk(
        self,
        total: u32,
        tally: FileTally,
        powers: [u16; 50],
        piece: &[u8],
        from: usize,
    ) -> FileReader
        requires { from ≤ length piece.now }
        ensures { in_hand result
            ≡ walked (in_hand self) total (with_powers tally powers) (drop from piece.now) }
    {
        let named = self.named.min(LONGEST_HEADER);
        let steps = self.steps.min(STEPS);
        let header = &self.header[..named as usize];
        let mut powers = powers;
        let run = take_lines(tally, header, steps, piece, from, &mut powers);
        FileReader {
            steps,
            named,
            length: total,
            tally: run.tally,
            powers,
            held: (piece.len() - run.at).min(HELD as usize) as u32,
            line: first_bytes(piece, run.at),
            ..self
        }
    }

    // A piece more, after a line in hand.
    fn go_on(self, total: u32, piece: &[u8]) -> FileReader
        ensures { in_hand result
            ≡ continued (in_hand self) total piece.now (byte_from 10 piece.now 0) }
    {
        let end = byte_from(piece, 0, b'\n');
        let whole = whole_line(self.line, self.held, piece, end);
        if piece.len() <= end {
            return FileReader {
                length: total,
                held: whole.length,
                line: first_bytes(&whole.text, 0),
                ..self
            };
        }
        let n = self.named.min(LONGEST_HEADER) as usize;
        let line = &whole.text[..whole.length as usize + 1];
        let mut powers = self.powers;
        let run = take_lines(
            self.tally,
            &self.header[..n],
            self.steps.min(STEPS),
            line,
            0,
            &mut powers,
        );
        self.walk(total, run.tally, powers, piece, end + 1)
    }

    // A piece more: each is handed in once, cut anywhere.
    pub fn feed(self, piece: &[u8]) -> FileReader
        ensures { in_hand result ≡ fed (in_hand self) piece.now }
    {
        let total = length_with(self.length, piece);
        if (self.named < SHORTEST_HEADER) | (MOST_BYTES < total) {
            return FileReader {
                length: total,
                ..self
            };
        }
        if self.held == 0 {
            return self.walk(total, self.tally, self.powers, piece, 0);
        }
        self.go_on(total, piece)
    }

    // The end: the notification, or the first refusal of 1 to 8.
    pub fn end(self) -> Result<Notification, Refusal>
        ensures { result ≡ ended (in_hand self) }
    {
        refuse_if(self.named < SHORTEST_HEADER, InputRefusal::Name)?;
        let whole = (1 <= self.length) & (self.length <= MOST_BYTES) & (self.held == 0);
        refuse_if(!whole, InputRefusal::Body)?;
        let n = self.named.min(LONGEST_HEADER) as usize;
        let key = key_of(&self.header[..n], self.day);
        conclude(key, self.steps.min(STEPS), self.tally, self.powers)
    }
}
