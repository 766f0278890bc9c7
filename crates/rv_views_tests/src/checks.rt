//! What many tests compare, each comparison as a call: a test that holds it itself takes several times as long to prove.

use std::process::Abort;

/// Checks bytes that were written.
pub(crate) fn check_bytes(rt: &impl Abort, found: &[u8], expected: &[u8]) {
    assert_eq!(rt; found, expected);
}

/// Checks that something holds.
pub(crate) fn check(rt: &impl Abort, holds: bool) {
    assert!(rt; holds);
}

/// Checks the beginning of bytes that were written.
pub(crate) fn check_start(rt: &impl Abort, found: &[u8], start: &[u8]) {
    assert!(rt; found.starts_with(start));
}

/// Checks the end of bytes that were written.
pub(crate) fn check_end(rt: &impl Abort, found: &[u8], end: &[u8]) {
    assert!(rt; found.ends_with(end));
}

/// Checks a text.
pub(crate) fn check_text(rt: &impl Abort, found: &str, expected: &str) {
    assert_eq!(rt; found, expected);
}

/// Checks that a text has a part.
pub(crate) fn check_part(rt: &impl Abort, text: &str, part: &str) {
    assert!(rt; text.contains(part), "{part}: {text}");
}

/// Checks that a text has each of these parts.
pub(crate) fn check_parts(rt: &impl Abort, text: &str, parts: &[&str]) {
    for part in parts {
        check_part(rt, text, part);
    }
}

/// Checks that bytes that were written have a part.
pub(crate) fn check_has(rt: &impl Abort, found: &[u8], part: &str) {
    check_part(rt, text_of(rt, found), part);
}

/// Checks that bytes that were written have each of these parts.
pub(crate) fn check_has_all(rt: &impl Abort, found: &[u8], parts: &[&str]) {
    check_parts(rt, text_of(rt, found), parts);
}

/// Checks that bytes that were written have none of these parts.
pub(crate) fn check_has_none(rt: &impl Abort, found: &[u8], parts: &[&str]) {
    check_none(rt, text_of(rt, found), parts);
}

/// The text that bytes are.
pub(crate) fn text_of<'a>(rt: &impl Abort, bytes: &'a [u8]) -> &'a str {
    str::from_utf8(bytes).expect(rt, "UTF-8")
}

/// Checks that a text has a part so often.
pub(crate) fn check_count(rt: &impl Abort, text: &str, part: &str, count: usize) {
    let mut rest = text;
    for _ in 0..count {
        let (_, after) = rest.split_once(part).expect(rt, part);
        rest = after;
    }
    assert!(rt; !rest.contains(part), "{part}");
}

/// Checks that a text has none of these parts.
pub(crate) fn check_none(rt: &impl Abort, text: &str, parts: &[&str]) {
    for part in parts {
        check_count(rt, text, part, 0);
    }
}
