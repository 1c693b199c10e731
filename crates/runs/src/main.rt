// Reads a stream of lists of steps, each with one step more, and prints what the machine answers to that one.
#![tactic(auto)]

use calls::Calls;
use console::Line;
use steps::StepTaken;

// A step behind a list of them.
const STEP: u8 = b'M';

fn taken(line: Line, step: StepTaken) -> Line {
    line.item(b"taken, event ", step.event)
        .item(b", entry ", step.entry)
}

fn step(rt: &HostRuntime, k: u64, block: &[u8]) {
    let mut steps = [0u8; calls::LIST];
    let steps = calls::list(rt, &mut steps);
    let number = calls::number(rt);
    let line = calls::begin(rt, k);
    let said = match bench::step(block, steps, number) {
        Ok(step) => taken(line, step),
        Err(r) => words::refused(line, r),
    };
    let _ = said.end();
}

#[derive(Drop)]
struct Runs;

impl Calls for Runs {
    fn call(&mut self, rt: &HostRuntime, tag: u8, k: u64, block: &[u8]) -> bool {
        if tag == STEP {
            step(rt, k, block);
        }
        tag == STEP
    }
}

fn main(rt: HostRuntime) {
    let mut block = [0u8; calls::TEST];
    calls::answer_all(&rt, &mut block, &mut Runs);
}
