// Reads a stream of calls for outcomes, and prints a line for each: the answer, and the buffer as it now is.
#![tactic(auto)]

use calls::Calls;
use console::Line;
use outcome_listing::Listing;
use refusals::Refusal;

// A call for the next outcome, and one for as many of the next ones as the buffer has room for.
const OUTCOME: u8 = b'O';

const OUTCOMES: u8 = b'L';

// No buffer of the stream has more places.
const PLACES: usize = 4096;

// What each of them holds before the call.
const PREFILL: u16 = 0xEEEE;

// Reads a list of values, a length and that many numbers of two bytes.
fn values<'a>(rt: &HostRuntime, list: &'a mut [u16; calls::LIST]) -> &'a [u16] {
    let n = calls::length(rt);
    let values = &mut list[..n];
    for v in &mut *values {
        *v = console::word(rt);
    }
    values
}

fn spaced(line: Line, buffer: &[u16]) -> Line {
    let mut said = line;
    for v in buffer {
        said = said.value(b" ", *v);
    }
    said
}

fn listed(line: Line, outcomes: u8, values: u8) -> Line {
    line.item(b"listed ", outcomes)
        .item(b" of ", values)
        .text(b" values")
}

fn said(line: Line, reply: Result<Listing, Refusal>) -> Line {
    match reply {
        Ok(Listing::Listed { outcomes, values }) => listed(line, outcomes, values),
        Ok(Listing::NoneLeft) => line.text(b"none left"),
        Ok(Listing::Spent) => line.text(b"spent"),
        Err(r) => words::refused(line, r),
    }
}

fn list(rt: &HostRuntime, tag: u8, k: u64, block: &[u8]) {
    let mut previous = [0u16; calls::LIST];
    let previous = values(rt, &mut previous);
    let mut out = [PREFILL; PLACES];
    let places = usize::from(console::word(rt)).min(PLACES);
    let out = &mut out[..places];
    let allowance = calls::number(rt);
    let reply = if tag == OUTCOME {
        bench::outcome(block, previous, out, allowance)
    } else {
        bench::outcomes(block, previous, out, allowance)
    };
    let line = said(calls::begin(rt, k), reply).text(b", buffer");
    let _ = spaced(line, out).end();
}

#[derive(Drop)]
struct OutcomeCalls;

impl Calls for OutcomeCalls {
    fn call(&mut self, rt: &HostRuntime, tag: u8, k: u64, block: &[u8]) -> bool {
        match tag {
            OUTCOME | OUTCOMES => list(rt, tag, k, block),
            _ => return false,
        }
        true
    }
}

fn main(rt: HostRuntime) {
    let mut block = [0u8; calls::TEST];
    calls::answer_all(&rt, &mut block, &mut OutcomeCalls);
}
