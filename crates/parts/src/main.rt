// Reads a suite of up to eight blocks and prints what part is handed back as each block, and as some that it lacks.
#![tactic(auto)]

use console::Line;
use edition::EditionOne;

const MOST_BLOCKS: usize = 8;

const MOST_BYTES: usize = MOST_BLOCKS * EditionOne::BLOCK;

// The last block whose first byte has a number that a usize holds.
const LAST: usize = usize::MAX / EditionOne::BLOCK;

fn part(rt: &HostRuntime, suite: &[u8], k: usize) {
    let bytes = suite_part::block(suite, k);
    let begun = Line::output(rt).number(k as u64);
    let said = match (bytes.first(), bytes.last()) {
        (Some(first), Some(last)) => begun
            .text(b": ")
            .number(bytes.len() as u64)
            .text(b" bytes, from")
            .spaced(u64::from(*first))
            .text(b" to")
            .spaced(u64::from(*last)),
        _ => begun.text(b": not in the suite"),
    };
    let _ = said.end();
}

fn parts(rt: &HostRuntime, suite: &[u8]) {
    let n = suite_part::blocks(suite);
    let _ = Line::output(rt).number(n as u64).text(b" blocks").end();
    for k in 0..MOST_BLOCKS {
        part(rt, suite, k);
    }
    part(rt, suite, LAST);
    part(rt, suite, LAST + 1);
    part(rt, suite, usize::MAX);
}

fn main(rt: HostRuntime) {
    let mut buffer = [0u8; MOST_BYTES];
    match console::fill(&rt, &mut buffer) {
        Ok(n) => parts(&rt, console::front(&buffer, n)),
        Err(e) => console::input_failed(&rt, b"parts", e),
    }
}
