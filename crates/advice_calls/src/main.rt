// Reads a stream of calls for advice, and prints a line for each.
#![tactic(auto)]

use advising::Advice;
use calls::Calls;
use console::Line;

// A call for advice on the test lent last.
const ADVISE: u8 = b'A';

fn with_mask(line: Line, text: &[u8], mask: u32) -> Line {
    line.text(text).text(b", mask ").number(u64::from(mask))
}

fn advise(rt: &HostRuntime, k: u64, block: &[u8]) {
    let allowance = calls::number(rt);
    let line = calls::begin(rt, k);
    let said = match bench::advise(block, allowance) {
        Ok(Advice::Advised(mask)) => with_mask(line, b"advised", mask),
        Ok(Advice::Undecided(mask)) => with_mask(line, b"undecided", mask),
        Ok(Advice::NoHelp) => line.text(b"no help"),
        Err(r) => words::refused(line, r),
    };
    let _ = said.end();
}

#[derive(Drop)]
struct AdviceCalls;

impl Calls for AdviceCalls {
    fn call(&mut self, rt: &HostRuntime, tag: u8, k: u64, block: &[u8]) -> bool {
        if tag == ADVISE {
            advise(rt, k, block);
        }
        tag == ADVISE
    }
}

fn main(rt: HostRuntime) {
    let mut block = [0u8; calls::TEST];
    calls::answer_all(&rt, &mut block, &mut AdviceCalls);
}
