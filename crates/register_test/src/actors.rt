// The actors: a letter in a scenario stands for a code.
use crate::printing::put;
use lists::bytes::byte_at;
use notification::forms::in_bytes;
use std::io;

// The code of an actor by its letter, from A to I: the letter stands in it, and it ends with its check character.
pub(crate) fn code_of(word: &[u8]) -> [u8; 16] {
    let letter = byte_at(word, 0);
    let mut code: [u8; 16] = in_bytes(b"17X-ACTOR-A----8");
    code[10] = letter;
    code[15] = byte_at(b" 82XRLF93Y", usize::from(letter % 16));
    code
}

// Every letter and its code.
pub(crate) fn put_actors(rt: &impl Print) -> io::Result<()> {
    println!(rt; "The actors and their codes")?;
    for letter in b'A'..=b'I' {
        let name = [letter];
        let code = code_of(&name);
        put(rt, &name)?;
        put(rt, b" ")?;
        put(rt, &code)?;
        put(rt, b"\n")?;
    }
    put(rt, b"\n")
}
