// What failed is said on standard error.
use std::io::Error;

// An error's text without the number that stands behind the C library's words.
fn without_number(text: &str) -> &str {
    text.rsplit_once(" (os error ")
        .map_or(text, |(words, _)| words)
}

// Says what failed, and why. Where that can't be said, as where standard error is closed, it isn't.
pub(crate) fn say(rt: &HostRuntime, what: &str, error: &Error) {
    let _ = match error.to_string(rt.alloc()) {
        Ok(text) => {
            let why = without_number(text.as_str());
            eprintln!(rt; "{what}: {why}")
        }
        Err(_) => eprintln!(rt; "{what}"),
    };
}
