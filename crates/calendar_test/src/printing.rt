// Days and labels as texts.
use calendar::Label;

// Bytes of the calendar's, all of them ASCII, as a text.
pub(crate) fn text(bytes: &[u8]) -> &str {
    std::str::from_utf8(bytes).unwrap_or("no text")
}

// The bytes that a label has.
pub(crate) fn label_bytes(label: &Label) -> &[u8] {
    let n = label.bytes.len().min(label.len as usize);
    &label.bytes[..n]
}
