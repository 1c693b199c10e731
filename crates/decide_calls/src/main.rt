// Reads a stream of calls for the next witness, and prints a line for each; one more where a memo changes the answer.
#![tactic(auto)]

ghost use Rattle.std.specs.Prelude.{◌≤◌, length};

use calls::Calls;
use console::Line;
use refusals::Refusal;

// A call for the least witness that is greater than a start.
const NEXT: u8 = b'N';

// The longest memo that a call is tried with, and what is in a memo before.
const MEMO: usize = 7;

const PREFILL: u64 = 0xEEEE_EEEE_EEEE_EEEE;

fn said(line: Line, decision: Result<Option<usize>, Refusal>) -> Line {
    match decision {
        Ok(Some(len)) => line.text(b"found, length ").number(len as u64),
        Ok(None) => line.text(b"none left"),
        Err(r) => words::refused(line, r),
    }
}

fn same_words(
    rt: &HostRuntime,
    a: Result<Option<usize>, Refusal>,
    b: Result<Option<usize>, Refusal>,
) -> bool {
    let one = said(Line::output(rt), a);
    let other = said(Line::output(rt), b);
    console::front(&one.bytes, one.len) == console::front(&other.bytes, other.len)
}

// The same call with a memo.
fn with_memo(
    rt: &HostRuntime,
    k: u64,
    block: &[u8],
    start: &[u8],
    answer: &[u8],
    decision: Result<Option<usize>, Refusal>,
    memo: &mut [u64],
)
    requires { length answer.now ≤ 255 }
{
    let mut buffer = [calls::PREFILL; calls::LIST];
    let buffer = &mut buffer[..answer.len()];
    let other = bench::decide_with(block, start, buffer, memo);
    if same_words(rt, decision, other) && answer == buffer {
        return;
    }
    let line = calls::begin(rt, k).text(b"with a memo, ");
    calls::end(said(line, other), buffer);
}

fn decide(rt: &HostRuntime, k: u64, block: &[u8]) {
    let mut start = [0u8; calls::LIST];
    let start = calls::list(rt, &mut start);
    let mut answer = [calls::PREFILL; calls::LIST];
    let answer = calls::answer(rt, &mut answer);
    let decision = bench::decide(block, start, answer);
    calls::end(said(calls::begin(rt, k), decision), answer);
    with_memo(rt, k, block, start, answer, decision, &mut []);
    with_memo(rt, k, block, start, answer, decision, &mut [PREFILL]);
    with_memo(rt, k, block, start, answer, decision, &mut [PREFILL; MEMO]);
}

#[derive(Drop)]
struct DecideCalls;

impl Calls for DecideCalls {
    fn call(&mut self, rt: &HostRuntime, tag: u8, k: u64, block: &[u8]) -> bool {
        if tag == NEXT {
            decide(rt, k, block);
        }
        tag == NEXT
    }
}

fn main(rt: HostRuntime) {
    let mut block = [0u8; calls::TEST];
    calls::answer_all(&rt, &mut block, &mut DecideCalls);
}
