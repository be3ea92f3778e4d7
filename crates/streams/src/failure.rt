// What is told of a read or a write that failed.
use std::io::{Error, Write};

// Writes a line to standard error: what failed, as the caller names it, a colon and the system's text.
pub(crate) fn tell(rt: &HostRuntime, error: Error, name: &[u8]) {
    let mut text = [0u8; 128];
    let why = reason(error, &mut text);
    let to = rt.stderr();
    let _ = to.write_all(name);
    let _ = to.write_all(b": ");
    let _ = to.println(why);
}

// The error's text, without the number that stands behind it in brackets.
fn reason<'a>(error: Error, text: &'a mut [u8; 128]) -> &'a str {
    let mut rest: &mut [u8] = text;
    let _ = write!(rest, "{error}");
    match std::str::from_utf8(text) {
        Ok(all) => before(before(all, " (os error "), "\0"),
        Err(_) => "",
    }
}

fn before<'a>(text: &'a str, end: &str) -> &'a str {
    text.split_once(end).map_or(text, |(front, _)| front)
}
