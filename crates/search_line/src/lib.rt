// Search calls, single ones and those of walks, and how one ended, in words: what the programs that search share.
#![tactic(auto)]

use calls::{LIST, PREFILL};
use console::Line;
use refusals::Refusal;
use witness_walk::Ending;

fn visited(line: Line, n: u64) -> Line {
    line.number(n).text(b" visited")
}

fn prefix(line: Line, n: u64, len: usize) -> Line {
    visited(line, n).text(b", length ").number(len as u64)
}

pub fn ended(line: Line, o: Ending) -> Line {
    match o {
        Ending::Found { len, visited: n } => prefix(line.text(b"found, "), n, len),
        Ending::NoneLeft { visited: n } => visited(line.text(b"none left, "), n),
        Ending::Spent { len, visited: n } => prefix(line.text(b"spent, "), n, len),
    }
}

pub fn replied(line: Line, reply: Result<Ending, Refusal>) -> Line {
    match reply {
        Ok(o) => ended(line, o),
        Err(r) => words::refused(line, r),
    }
}

// The start of the walk's next call, whose length it answers: what was written, or the start again.
pub fn next_start(ending: Ending, answer: &[u8], start: &mut [u8], len: usize) -> usize {
    match ending {
        Ending::NoneLeft { .. } => len,
        Ending::Found { len: n, .. } | Ending::Spent { len: n, .. } => {
            let most = n.min(answer.len()).min(start.len());
            start[..most].copy_from_slice(&answer[..most]);
            n
        }
    }
}

// A call from the start that it is given.
pub fn single<F: FnOnce(&[u8], &mut [u8]) -> Option<Ending>>(rt: &HostRuntime, search: F)
    requires { F.IsAlwaysCallable search }
{
    let mut start = [0u8; LIST];
    let start = calls::list(rt, &mut start);
    let mut answer = [PREFILL; LIST];
    search(start, calls::answer(rt, &mut answer));
}

// Where a walk is: the start of its next call.
#[derive(Drop)]
pub struct Walk {
    start: [u8; LIST],
    len: usize,
}

impl Walk {
    pub fn new() -> Walk {
        Walk {
            start: [0; LIST],
            len: 0,
        }
    }

    // The next call of the walk. The one after it starts from what this one writes, or from the same start again.
    pub fn go_on<F: FnOnce(&[u8], &mut [u8]) -> Option<Ending>>(
        &mut self,
        rt: &HostRuntime,
        search: F,
    )
        requires { F.IsAlwaysCallable search }
    {
        let mut answer = [PREFILL; LIST];
        let start = console::front(&self.start, self.len);
        if let Some(ending) = search(start, calls::answer(rt, &mut answer)) {
            self.len = next_start(ending, &answer, &mut self.start, self.len);
        }
    }
}
