// Damaged names and bodies: a text with a piece in the place of a part of it.
// Copies a text into a buffer, with a piece in the place of the part from one place until another, as far as the buffer
// goes, and gives the length.
pub(crate) fn replaced(
    to: &mut [u8],
    text: &[u8],
    from: usize,
    until: usize,
    piece: &[u8],
) -> usize {
    let bytes = text
        .iter()
        .take(from)
        .chain(piece)
        .chain(text.iter().skip(until));
    let mut end = 0;
    for (i, (place, byte)) in to.iter_mut().zip(bytes).enumerate() {
        *place = *byte;
        end = i + 1;
    }
    end
}

// Puts the digit 0 in the place of each power, where every power has one digit.
pub(crate) fn zeroed(body: &mut [u8]) {
    for power in body.iter_mut().skip(63).step_by(15).take(48) {
        *power = b'0';
    }
}
