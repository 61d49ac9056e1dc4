// The writer: a request's object, put into a lent buffer (document 02, K3).
ghost use Rattle.std.specs.Prelude.{◌≡◌, true, ◌≤◌, length};
ghost use Rattle.notification.specs.Writing.{ranged, written};
ghost use Rattle.writer.specs.Placing.{Placed};
ghost use Rattle.request.specs.Writing.{object_text, request_verdict, request_answer};

use crate::members::{put_actors, put_terms};
use crate::moments::is_timed;
use crate::steps::{put_steps, steps_length};
use notification::forms::is_code;
use refusals::trying::refuse_if;
use refusals::{InputRefusal, Refusal, StateRefusal};
use request::Request;
use writer::checks::{category_length, is_formed, is_ranged, is_zero};
use writer::placing::put_text;

// How long an object is but for its category and its steps.
const OBJECT_FRAME: usize = 265;

// How long a request's object is.
fn object_length(r: Request) -> usize
    requires { ranged r.notification ≡ true }
    ensures { result ≡ length (object_text r) }
{
    let n = r.notification;
    let category = n.key.category;
    let powers = n.powers;
    let head = OBJECT_FRAME + category_length(category);
    head + steps_length(n.steps, &powers)
}

// What writing comes to, by the length of the buffer: 9, 10, 8 and 36 in this order. Only a request that passes the
// first three has a text whose length 36 can be tried by.
#[tactic(auto, unfolding(request::specs::Writing::request_verdict))]
fn write_verdict(r: Request, buffer: usize) -> Result<(), Refusal>
    ensures { result ≡ request_verdict r buffer }
{
    let n = r.notification;
    let origin = r.origin;
    let formed = is_formed(n.key) & is_code(&origin);
    refuse_if(!formed, InputRefusal::Form)?;
    let timed = is_ranged(n) & is_timed(r.moment);
    refuse_if(!timed, InputRefusal::Range)?;
    refuse_if(is_zero(n), InputRefusal::Zeros)?;
    refuse_if(buffer < object_length(r), StateRefusal::Full)?;
    Ok(())
}

// Puts a request's object.
fn put_object(buffer: &mut [u8], r: Request) -> usize
    requires { (ranged r.notification ≡ true) × (length (object_text r) ≤ length buffer.old) }
    ensures { Placed buffer.old 0 (object_text r) buffer.new result }
{
    let n = r.notification;
    let powers = n.powers;
    let second = put_actors(&mut *buffer, 0, r);
    let third = put_terms(&mut *buffer, second, r);
    let end = put_steps(&mut *buffer, third, n.steps, &powers);
    put_text(buffer, end, b"]}")
}

// Writes a request's object, without blanks, into a lent buffer, the rest untouched, and gives its length. A request
// that is refused leaves the buffer as it is.
pub fn write_object(r: Request, buffer: &mut [u8]) -> Result<usize, Refusal>
    ensures value { result ≡ request_answer r (length buffer.old) }
    ensures buffer_after { buffer.new ≡ written (request_verdict r (length buffer.old)) (object_text r)
        buffer.old }
{
    write_verdict(r, buffer.len())?;
    let length = put_object(buffer, r);
    Ok(length)
}
