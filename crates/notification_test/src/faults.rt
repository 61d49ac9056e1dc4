// The guide's file with each fault, and bodies of the greatest length. The functions are lists of tests, which differ
// in their data alone.
use crate::reading::{file, other_body, other_name};
use std::io;

// Names with a fault around the parts.
fn names_in_form(rt: &impl Print, name: &[u8], body: &[u8]) -> io::Result<()> {
    other_name(rt, "name prefix in lower case", name, body, 0, 1, b"n")
}

// Names with a wrong part in each place.
fn names_in_parts(rt: &impl Print, name: &[u8], body: &[u8]) -> io::Result<()> {
    other_name(rt, "name, ceder in lower case", name, body, 6, 7, b"x")?;
    other_name(rt, "name, acquirer with a line", name, body, 21, 22, b"_")
}

// Names with a wrong date or category.
fn names_in_date(rt: &impl Print, name: &[u8], body: &[u8]) -> io::Result<()> {
    other_name(
        rt,
        "name, 29 February 2021",
        name,
        body,
        38,
        46,
        b"20210229",
    )?;
    other_name(rt, "name, category with D", name, body, 47, 53, b"13120D")
}

// Names of the right form that aren't the header's.
fn other_keys(rt: &impl Print, name: &[u8], body: &[u8]) -> io::Result<()> {
    other_name(rt, "name, the next day", name, body, 38, 46, b"20210121")
}

// Bodies that are empty, or don't end with LF.
fn bodies(rt: &impl Print, name: &[u8], body: &[u8]) -> io::Result<()> {
    other_body(rt, "body empty", name, body, 0, 819, b"")?;
    other_body(rt, "body without its last LF", name, body, 818, 819, b"")
}

// First lines that are no header.
fn headers(rt: &impl Print, name: &[u8], body: &[u8]) -> io::Result<()> {
    other_body(rt, "header, ceder in lower case", name, body, 2, 3, b"x")?;
    other_body(
        rt,
        "header without its last semicolon",
        name,
        body,
        49,
        50,
        b"",
    )
}

// More first lines that are no header, with other faults behind some.
fn more_headers(rt: &impl Print, name: &[u8], body: &[u8]) -> io::Result<()> {
    other_body(rt, "header, CR before LF", name, body, 50, 50, b"\r")
}

// First lines that are headers, and differ from the name.
fn differing(rt: &impl Print, name: &[u8], body: &[u8]) -> io::Result<()> {
    other_body(rt, "header, another ceder", name, body, 15, 16, b"1")?;
    other_body(
        rt,
        "header, category without C",
        name,
        body,
        43,
        49,
        b"13120",
    )
}

// Bodies with a wrong count of lines, other faults among them.
fn counts(rt: &impl Print, name: &[u8], body: &[u8]) -> io::Result<()> {
    other_body(rt, "line 5 left out", name, body, 99, 115, b"")?;
    other_body(
        rt,
        "a line more",
        name,
        body,
        819,
        819,
        b"24:00;24:30;15;\n",
    )?;
    other_body(rt, "two LF at the end", name, body, 819, 819, b"\n")?;
    other_body(
        rt,
        "a wrong label and a line less",
        name,
        body,
        51,
        83,
        b"00:10;00:30;15;\n",
    )
}

// Wrong labels at lines 2, 5 and 49.
fn labels(rt: &impl Print, name: &[u8], body: &[u8]) -> io::Result<()> {
    other_body(rt, "line 2, first label", name, body, 51, 56, b"00:30")?;
    other_body(
        rt,
        "line 2, blank after the first semicolon",
        name,
        body,
        57,
        57,
        b" ",
    )?;
    other_body(
        rt,
        "line 5, labels of line 6",
        name,
        body,
        99,
        110,
        b"02:00;02:30",
    )
}

// More wrong labels.
fn more_labels(rt: &impl Print, name: &[u8], body: &[u8]) -> io::Result<()> {
    other_body(
        rt,
        "line 49, midnight as 00:00",
        name,
        body,
        809,
        814,
        b"00:00",
    )
}

// Powers of line 2.
fn powers_two(rt: &impl Print, name: &[u8], body: &[u8]) -> io::Result<()> {
    other_body(rt, "line 2, power 015", name, body, 63, 65, b"015")?;
    other_body(rt, "line 2, power +5", name, body, 63, 65, b"+5")?;
    other_body(rt, "line 2, power 10000", name, body, 63, 65, b"10000")?;
    other_body(rt, "line 2, power empty", name, body, 63, 65, b"")
}

// Powers of line 5.
fn powers_five(rt: &impl Print, name: &[u8], body: &[u8]) -> io::Result<()> {
    other_body(rt, "line 5, power 015", name, body, 111, 113, b"015")?;
    other_body(
        rt,
        "line 5, blank before the power",
        name,
        body,
        111,
        111,
        b" ",
    )
}

// Powers of line 49.
fn powers_last(rt: &impl Print, name: &[u8], body: &[u8]) -> io::Result<()> {
    other_body(rt, "line 49, power 10000", name, body, 815, 817, b"10000")
}

// Lines that don't end as they should.
fn line_ends(rt: &impl Print, name: &[u8], body: &[u8]) -> io::Result<()> {
    other_body(rt, "line 2, CR before LF", name, body, 66, 66, b"\r")
}

// Two faults in one body.
fn order(rt: &impl Print, name: &[u8], body: &[u8]) -> io::Result<()> {
    other_body(
        rt,
        "power of line 5, label of line 6",
        name,
        body,
        111,
        120,
        b"+20;\n02:10",
    )
}

// Bodies of 4,096 and of 4,097 bytes: a long power, and many empty lines.
fn lengths(rt: &impl Print, name: &[u8], body: &[u8]) -> io::Result<()> {
    let digits = [b'1'; 3277];
    let more_digits = [b'1'; 3278];
    other_body(
        rt,
        "body of 4096, a long power",
        name,
        body,
        815,
        815,
        &digits,
    )?;
    other_body(
        rt,
        "body of 4097, a long power",
        name,
        body,
        815,
        815,
        &more_digits,
    )
}

// Empty slices.
fn empty(rt: &impl Print, name: &[u8], body: &[u8]) -> io::Result<()> {
    file(rt, "name empty", b"", body)?;
    file(rt, "name and body empty", b"", b"")
}

pub(crate) fn all_cases(rt: &impl Print, name: &[u8], body: &[u8]) -> io::Result<()> {
    file(rt, "the guide's file", name, body)?;
    empty(rt, name, body)?;
    names_in_form(rt, name, body)?;
    names_in_parts(rt, name, body)?;
    names_in_date(rt, name, body)?;
    other_keys(rt, name, body)?;
    bodies(rt, name, body)?;
    headers(rt, name, body)?;
    more_headers(rt, name, body)?;
    differing(rt, name, body)?;
    counts(rt, name, body)?;
    labels(rt, name, body)?;
    more_labels(rt, name, body)?;
    powers_two(rt, name, body)?;
    powers_five(rt, name, body)?;
    powers_last(rt, name, body)?;
    line_ends(rt, name, body)?;
    order(rt, name, body)?;
    lengths(rt, name, body)
}
