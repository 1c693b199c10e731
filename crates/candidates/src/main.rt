// Reads a stream of candidates, of pairs whose rules and of orders whose returned lists are asked for, and prints a line for each.
#![tactic(auto)]

use calls::Calls;
use console::Line;
use table::EventNo;
use verdict::{Axiom, Verdict};

// A verdict, a returned list that an order determines, and the rules of a pair.
const VERDICT: u8 = b'V';

const RETURNED: u8 = b'D';

const RULES: u8 = b'R';

fn event(line: Line, e: EventNo) -> Line {
    line.item(b" ", e.0)
}

// The numbers of a set, whose bit r - 1 is rule r.
fn rules(line: Line, set: u16) -> Line {
    let mut said = line.text(b"rules");
    for bit in 0..u16::BITS {
        if (set >> bit) % 2 == 1 {
            said = said.spaced(u64::from(bit) + 1);
        }
    }
    said
}

fn preserved_order(line: Line, a: EventNo, b: EventNo, set: u16) -> Line {
    let pair = event(event(line.text(b"preserved order"), a), b);
    rules(pair.text(b" "), set)
}

fn axiom(line: Line, broken: Axiom) -> Line {
    match broken {
        Axiom::PreservedOrder(a, b, set) => preserved_order(line, a, b, set),
        Axiom::LoadValue(reader) => event(line.text(b"load value"), reader),
        Axiom::Atomicity(lr, writer) => event(event(line.text(b"atomicity"), lr), writer),
        Axiom::ValueRead(reader) => event(line.text(b"value read"), reader),
        Axiom::FinalValue(x) => line.item(b"final value ", x.0),
    }
}

fn verdict(rt: &HostRuntime, k: u64, block: &[u8]) {
    let mut returned = [0u8; calls::LIST];
    let returned = calls::list(rt, &mut returned);
    let mut order = [0u8; calls::LIST];
    let order = calls::list(rt, &mut order);
    let line = calls::begin(rt, k);
    let said = match bench::verdict(block, returned, order) {
        Ok(Verdict::Allowed) => line.text(b"allowed"),
        Ok(Verdict::Broken(broken)) => axiom(line, broken),
        Err(r) => words::refused(line, r),
    };
    let _ = said.end();
}

fn returns(rt: &HostRuntime, k: u64, block: &[u8]) {
    let mut order = [0u8; calls::LIST];
    let order = calls::list(rt, &mut order);
    let mut answer = [calls::PREFILL; calls::LIST];
    let answer = calls::answer(rt, &mut answer);
    let line = calls::begin(rt, k);
    let said = match bench::returns(block, order, answer) {
        Ok(()) => line.text(b"written"),
        Err(r) => words::refused(line, r),
    };
    calls::end(said, answer);
}

fn pair(rt: &HostRuntime, k: u64, block: &[u8]) {
    let mut returned = [0u8; calls::LIST];
    let returned = calls::list(rt, &mut returned);
    let a = calls::number(rt);
    let b = calls::number(rt);
    let line = calls::begin(rt, k);
    let said = match bench::rules(block, returned, a, b) {
        Ok(set) => rules(line, set),
        Err(r) => words::refused(line, r),
    };
    let _ = said.end();
}

#[derive(Drop)]
struct Candidates;

impl Calls for Candidates {
    fn call(&mut self, rt: &HostRuntime, tag: u8, k: u64, block: &[u8]) -> bool {
        match tag {
            VERDICT => verdict(rt, k, block),
            RETURNED => returns(rt, k, block),
            RULES => pair(rt, k, block),
            _ => return false,
        }
        true
    }
}

fn main(rt: HostRuntime) {
    let mut block = [0u8; calls::TEST];
    calls::answer_all(&rt, &mut block, &mut Candidates);
}
