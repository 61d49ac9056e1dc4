// The label of a boundary between steps as an object has it: "Labels are `hhhmm`, the last end is `00h00`, long days
// use `_BIS`".
ghost use Rattle.std.specs.Prelude.{cond, ◌≡◌, ◌≤◌, eqb, length, take};
ghost use Rattle.notification.specs.Forms.{places};
ghost use Rattle.request.specs.Writing.{hour_label};

use calendar::{Label, labels_of};

// The boundary whose label stands at a boundary: a day ends as it begins.
fn labelled(steps: u32, at: u32) -> u32
    ensures { result ≡ cond (eqb at steps) 0 at }
{
    if at == steps { 0 } else { at }
}

// The label, of which so many bytes count.
pub fn hour_label(steps: u32, at: u32) -> Label
    requires { (at ≤ steps) × (steps ≤ places) × (1 ≤ steps) }
    ensures { (take result.len result.bytes ≡ hour_label steps at) × (result.len ≡ length (hour_label steps at))
        × (length result.bytes ≡ 9) × (result.len ≤ 9) × (5 ≤ result.len) }
{
    let labels = labels_of(steps, labelled(steps, at));
    let from = labels.from;
    let mut bytes = from.bytes;
    bytes[2] = b'h';
    Label {
        bytes,
        len: from.len,
    }
}
