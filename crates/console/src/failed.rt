// What is said of a read or a write that failed.
use super::Line;
use std::io::{Cursor, Error, Write};

// Longer than any error's text.
const LONGEST: usize = 256;

// The words of an error's text: the system's number for it stands behind them, in brackets.
fn words(text: &[u8]) -> &[u8] {
    match text.iter().position(|b| *b == b'(') {
        Some(i) => super::front(text, i.saturating_sub(1)),
        None => text,
    }
}

// Says on standard error what failed, and why.
pub fn say(rt: &HostRuntime, program: &[u8], what: &[u8], e: Error) {
    let mut text = Cursor::new([0u8; LONGEST]);
    let _ = write!(text, "{e}");
    let n = text.position() as usize;
    let bytes = text.into_inner();
    let _ = Line::error(rt)
        .text(program)
        .text(what)
        .text(words(super::front(&bytes, n)))
        .end();
}
