// What is held of an input between two blocks: a line whose end hasn't come yet.
ghost use Rattle.std.specs.Prelude.{◌≡◌, ◌≤◌, length};
ghost use Rattle.std.proofs.lemmas.List.Edits.{sets};
ghost use Rattle.lines.specs.Walking.{held_of, ended, ended_at};

// The most bytes of a line, and one more. A line that is too long stays so when the rest of it is forgotten.
const HELD: usize = 513;

// Moves the bytes from a place to before another to the front, 513 of them at most, and gives how many they are.
pub fn hold(input: &mut [u8], from: usize, to: usize) -> usize
    ensures { (input.new ≡ sets input.old 0 (held_of input.old from to))
        × (result ≡ length (held_of input.old from to)) × (result ≤ 513) × (result ≤ length input.old) }
{
    let end = to.min(input.len());
    let start = from.min(end);
    let held = HELD.min(end - start);
    input.copy_within(start..start + held, 0);
    held
}

// Gives a last line its LF, behind the bytes that are held of it, and says where the input then ends: at 0 where
// nothing is held, since there is no such line.
pub fn end_line(input: &mut [u8], held: usize) -> usize
    ensures { (input.new ≡ ended input.old held) × (result ≡ ended_at input.old held)
        × (result ≤ length input.old) }
{
    if held == 0 {
        return 0;
    }
    if input.len() <= held {
        return 0;
    }
    input[held] = b'\n';
    held + 1
}
