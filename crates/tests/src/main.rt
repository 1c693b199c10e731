// Reads a stream of suites and of calls on them, and prints a line for each call: the tests of a suite's first bytes, or the one at
// a block of the whole suite.
#![tactic(auto)]

use calls::Calls;
use console::Line;
use edition::EditionOne;

// A call on the suite's first bytes, and one on a block.
const WALK: u8 = b'C';

const BLOCK: u8 = b'K';

// No suite of a stream has more blocks.
const MOST_BLOCKS: usize = 8;

const MOST_BYTES: usize = MOST_BLOCKS * EditionOne::BLOCK;

// The test at block k: that number, its length, the next one's first block, and its refusal, 0 for none.
fn test(line: Line, suite: &[u8], k: usize) -> Line {
    let bytes = suite_walk::test(suite, k);
    let next = suite_walk::next(suite, k);
    let refusal = match block::read(bytes) {
        Ok(_) => 0,
        Err(refusal) => words::number(refusal),
    };
    line.number(k as u64)
        .spaced(bytes.len() as u64)
        .spaced(next as u64)
        .spaced(u64::from(refusal))
        .text(b" / ")
}

// Each test of a suite, and how many there are. The count ends the loop for the proof: no suite here has more tests than blocks.
fn tests(line: Line, suite: &[u8]) -> Line {
    let blocks = suite_part::blocks(suite);
    let mut said = line;
    let mut count: usize = 0;
    let mut k: usize = 0;
    while count < MOST_BLOCKS && k < blocks {
        said = test(said, suite, k);
        k = suite_walk::next(suite, k);
        count += 1;
    }
    said.number(count as u64).text(b" tests")
}

fn walk(rt: &HostRuntime, n: u64, suite: &[u8]) {
    let length = usize::from(console::word(rt));
    let _ = tests(calls::begin(rt, n), console::front(suite, length)).end();
}

fn ask(rt: &HostRuntime, n: u64, suite: &[u8]) {
    let k = calls::number(rt) as usize;
    let _ = calls::begin(rt, n)
        .number(suite_walk::test_length(suite, k) as u64)
        .text(b" bytes, next ")
        .number(suite_walk::next(suite, k) as u64)
        .end();
}

#[derive(Drop)]
struct Suites;

impl Calls for Suites {
    fn call(&mut self, rt: &HostRuntime, tag: u8, k: u64, suite: &[u8]) -> bool {
        match tag {
            WALK => walk(rt, k, suite),
            BLOCK => ask(rt, k, suite),
            _ => return false,
        }
        true
    }
}

fn main(rt: HostRuntime) {
    let mut buffer = [0u8; MOST_BYTES];
    calls::answer_all(&rt, &mut buffer, &mut Suites);
}
