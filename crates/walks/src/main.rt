// Reads a stream of search calls of both engines, single ones and those of walks, and prints a line for each.
#![tactic(auto)]

use calls::Calls;
use search_line::Walk;
use witness_walk::Ending;

// A call from the start that it is given, and one from the walk's own; in small letters those of the second engine.
const SEARCH: u8 = b'S';

const WALK: u8 = b'W';

const PRUNED_SEARCH: u8 = b's';

const PRUNED_WALK: u8 = b'w';

// A search by the first engine, or by the second; and how it ended, if it wasn't refused.
fn search(
    rt: &HostRuntime,
    k: u64,
    pruned: bool,
    block: &[u8],
    start: &[u8],
    answer: &mut [u8],
) -> Option<Ending> {
    let allowance = calls::number(rt);
    let reply = if pruned {
        bench::search_pruned(block, start, answer, allowance)
    } else {
        bench::search(block, start, answer, allowance)
    };
    calls::end(search_line::replied(calls::begin(rt, k), reply), answer);
    reply.ok()
}

#[derive(Drop)]
struct Walks {
    walk: Walk,
}

impl Calls for Walks {
    fn call(&mut self, rt: &HostRuntime, tag: u8, k: u64, block: &[u8]) -> bool {
        let pruned = matches!(tag, PRUNED_SEARCH | PRUNED_WALK);
        match tag {
            SEARCH | PRUNED_SEARCH => search_line::single(
                rt,
                |start, answer| search(rt, k, pruned, block, start, answer),
            ),
            WALK | PRUNED_WALK => self.walk.go_on(
                rt,
                |start, answer| search(rt, k, pruned, block, start, answer),
            ),
            _ => return false,
        }
        true
    }

    fn lent(&mut self) {
        self.walk = Walk::new();
    }
}

fn main(rt: HostRuntime) {
    let mut block = [0u8; calls::TEST];
    let mut walks = Walks { walk: Walk::new() };
    calls::answer_all(&rt, &mut block, &mut walks);
}
