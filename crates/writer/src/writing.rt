// The writer: a notification's name and body, put into two lent buffers (document 01, "The notification file").
ghost use Rattle.std.specs.Prelude.{◌≡◌, true, [], ◌∷◌, ◌++◌, ◌+◌, ◌≤◌, length, take};
ghost use Rattle.notification.specs.Writing.{name_of, header_of, lines_of, body_of, formed, ranged, write_verdict};
ghost use Rattle.writer.specs.Placing.{Placed, Powered, key_start, FileWritten};

use crate::checks::{category_length, is_formed, is_ranged, is_zero};
use crate::placing::{put_ended, put_text};
use crate::step_line::{line_length, put_line};
use calendar::text_of;
use notification::{FileLengths, Key, Notification};
use refusals::trying::refuse_if;
use refusals::{InputRefusal, Refusal, StateRefusal};

// How long a name is but for the category, and a header with its LF.
const NAME_FRAME: usize = 51;

const HEADER_FRAME: usize = 45;

// How long the lines of a day's steps are.
fn lines_length(steps: u32, powers: &[u16]) -> usize
    requires { Powered steps powers.now }
    ensures { result ≡ length (lines_of steps 0 (take steps powers.now)) }
{
    let mut sum: usize = 0;
    for (k, power) in (0..steps).zip(powers) {
        sum += line_length(steps, k, *power);
    }
    sum
}

// How long a notification's body is.
fn body_length(n: Notification) -> usize
    requires { (formed n.key ≡ true) × (ranged n ≡ true) }
    ensures { result ≡ length (body_of n) }
{
    let head = HEADER_FRAME + category_length(n.key.category);
    head + lines_length(n.steps, &n.powers)
}

// How long a key's name is.
fn name_length(key: Key) -> usize
    requires { formed key ≡ true }
    ensures { result ≡ length (name_of key) }
{
    NAME_FRAME + category_length(key.category)
}

// What writing comes to, by the lengths of the two buffers: 9, 10, 8 and 36 in this order. Only a notification that
// passes the first three has texts whose lengths 36 can be tried by.
#[tactic(auto, unfolding(notification::specs::Writing::write_verdict))]
pub fn write_verdict(n: Notification, name: usize, body: usize) -> Result<(), Refusal>
    ensures { result ≡ write_verdict n name body }
{
    let key = n.key;
    refuse_if(!is_formed(key), InputRefusal::Form)?;
    refuse_if(!is_ranged(n), InputRefusal::Range)?;
    refuse_if(is_zero(n), InputRefusal::Zeros)?;
    let short = (name < name_length(key)) | (body < body_length(n));
    refuse_if(short, StateRefusal::Full)?;
    Ok(())
}

// Puts ceder, acquirer and date, each ended by a byte.
fn put_start(buffer: &mut [u8], at: usize, key: Key, by: u8) -> usize
    requires { at + length (key_start by key) ≤ length buffer.old }
    ensures { Placed buffer.old at (key_start by key) buffer.new result }
{
    let second = put_ended(buffer, at, &key.ceder, by);
    let third = put_ended(buffer, second, &key.acquirer, by);
    put_ended(buffer, third, &text_of(key.day), by)
}

// Puts a key's name.
fn put_name(buffer: &mut [u8], key: Key) -> usize
    requires { length (name_of key) ≤ length buffer.old }
    ensures { Placed buffer.old 0 (name_of key) buffer.new result }
{
    let n = category_length(key.category);
    let second = put_text(buffer, 0, b"NER_");
    let third = put_start(buffer, second, key, b'_');
    let last = put_text(buffer, third, &key.category[..n]);
    put_text(buffer, last, b".csv")
}

// Puts a key's header with its LF.
fn put_header(buffer: &mut [u8], key: Key) -> usize
    requires { length (header_of key) + 1 ≤ length buffer.old }
    ensures { Placed buffer.old 0 (header_of key ++ 10 ∷ []) buffer.new result }
{
    let n = category_length(key.category);
    let second = put_start(buffer, 0, key, b';');
    let end = put_ended(buffer, second, &key.category[..n], b';');
    buffer[end] = b'\n';
    end + 1
}

// Puts the lines of a day's steps.
fn put_lines(buffer: &mut [u8], at: usize, steps: u32, powers: &[u16]) -> usize
    requires { Powered steps powers.now × (at + length (lines_of steps 0 (take steps powers.now)) ≤ length
        buffer.old) }
    ensures { Placed buffer.old at (lines_of steps 0 (take steps powers.now))
        buffer.new result }
{
    let mut next = at;
    for (k, power) in (0..steps).zip(powers) {
        next = put_line(buffer, next, steps, k, *power);
    }
    next
}

// Puts a notification's body.
fn put_body(buffer: &mut [u8], n: Notification) -> usize
    requires { (ranged n ≡ true) × (length (body_of n) ≤ length buffer.old) }
    ensures { Placed buffer.old 0 (body_of n) buffer.new result }
{
    let first = put_header(buffer, n.key);
    put_lines(buffer, first, n.steps, &n.powers)
}

// Writes a notification's name and body into two lent buffers, the rest of both untouched, and gives their lengths. A
// notification that is refused leaves both as they are.
pub fn write_file(n: Notification, name: &mut [u8], body: &mut [u8]) -> Result<FileLengths, Refusal>
    ensures { FileWritten n name.old body.old result name.new body.new }
{
    write_verdict(n, name.len(), body.len())?;
    let named = put_name(name, n.key);
    let written = put_body(body, n);
    Ok(FileLengths {
        name: named,
        body: written,
    })
}
