// Reads a stream of calls on texts, readings and searches, single ones and those of walks, and prints a line for each.
#![tactic(auto)]

use calls::Calls;
use console::Line;
use search_line::Walk;
use text::TextRefusal;
use witness_walk::Ending;

// A reading; a search from the start that it is given, and one from the walk's own.
const READ: u8 = b'T';

const SEARCH: u8 = b'S';

const WALK: u8 = b'W';

// One byte more than a legal text may have.
const TEXT: usize = 2049;

fn refused(line: Line, refusal: TextRefusal) -> Line {
    match refusal {
        TextRefusal::At { number, place } => words::refused_at(line, number, place),
        TextRefusal::Table(r) => words::refused(line, r),
    }
}

// What reading gives: the table, or the refusal.
fn read(rt: &HostRuntime, k: u64, text: &[u8]) {
    let begun = calls::begin(rt, k);
    let said = match bench::read_text(text) {
        Ok(t) => table_line::fields(begun, &t),
        Err(refusal) => refused(begun, refusal),
    };
    let _ = said.end();
}

// A search, and how it ended, if it wasn't refused.
fn search(
    rt: &HostRuntime,
    k: u64,
    text: &[u8],
    start: &[u8],
    answer: &mut [u8],
) -> Option<Ending> {
    let allowance = calls::number(rt);
    let reply = bench::search_text(text, start, answer, allowance);
    let begun = calls::begin(rt, k);
    let said = match reply {
        Ok(o) => search_line::ended(begun, o),
        Err(refusal) => refused(begun, refusal),
    };
    calls::end(said, answer);
    reply.ok()
}

#[derive(Drop)]
struct Texts {
    walk: Walk,
}

impl Calls for Texts {
    fn call(&mut self, rt: &HostRuntime, tag: u8, k: u64, text: &[u8]) -> bool {
        match tag {
            READ => read(rt, k, text),
            SEARCH => search_line::single(rt, |start, answer| search(rt, k, text, start, answer)),
            WALK => self
                .walk
                .go_on(rt, |start, answer| search(rt, k, text, start, answer)),
            _ => return false,
        }
        true
    }

    fn lent(&mut self) {
        self.walk = Walk::new();
    }
}

fn main(rt: HostRuntime) {
    let mut text = [0u8; TEXT];
    let mut texts = Texts { walk: Walk::new() };
    calls::answer_all(&rt, &mut text, &mut texts);
}
