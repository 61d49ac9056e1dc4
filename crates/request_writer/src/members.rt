// The members before the steps: three codes, the category, two dates and the status.
ghost use Rattle.std.specs.Prelude.{◌++◌, ◌+◌, ◌≤◌, length};
ghost use Rattle.writer.specs.Placing.{Placed};
ghost use Rattle.request_writer.specs.Pieces.{actors_text, terms_text};

use crate::moments::moment_text;
use request::{Moment, Request};
use writer::checks::category_length;
use writer::placing::put_text;

// Puts what stands before a value, and the value.
pub(crate) fn put_value(buffer: &mut [u8], at: usize, lead: &[u8], value: &[u8]) -> usize
    requires { at + length (lead.now ++ value.now) ≤ length buffer.old }
    ensures { Placed buffer.old at (lead.now ++ value.now) buffer.new
        result }
{
    let next = put_text(&mut *buffer, at, lead);
    put_text(buffer, next, value)
}

// Puts the codes of ceder, acquirer and origin.
pub(crate) fn put_actors(buffer: &mut [u8], at: usize, r: Request) -> usize
    requires { at + length (actors_text r) ≤ length buffer.old }
    ensures { Placed buffer.old at (actors_text r) buffer.new result }
{
    let ceder = r.notification.key.ceder;
    let acquirer = r.notification.key.acquirer;
    let origin = r.origin;
    let second = put_value(&mut *buffer, at, b"{\"CodeEicActeurCedant\":\"", &ceder);
    let third = put_value(
        &mut *buffer,
        second,
        b"\",\"CodeEicActeurAcquereur\":\"",
        &acquirer,
    );
    put_value(buffer, third, b"\",\"CodeEicActeurOrigine\":\"", &origin)
}

// Puts the category, the delivery day at its midnight, the moment of submission and the status, up to the steps.
pub(crate) fn put_terms(buffer: &mut [u8], at: usize, r: Request) -> usize
    requires { at + length (terms_text r) ≤ length buffer.old }
    ensures { Placed buffer.old at (terms_text r) buffer.new result }
{
    let key = r.notification.key;
    let category = key.category;
    let n = category_length(category);
    let day = moment_text(Moment {
        day: key.day,
        second: 0,
    });
    let submitted = moment_text(r.moment);
    let second = put_value(
        &mut *buffer,
        at,
        b"\",\"NomCategorieEngagement\":\"",
        &category[..n],
    );
    let third = put_value(&mut *buffer, second, b"\",\"DateExploitation\":\"", &day);
    let last = put_value(&mut *buffer, third, b"\",\"DateSoumission\":\"", &submitted);
    put_text(buffer, last, b"\",\"Statut\":\"C\",\"Chronique\":")
}
