// Prints the table of the refusals in words, which is to be that of docs/refusals.txt.
#![tactic(auto)]

use console::Line;

// The number of the last refusal.
const LAST: u8 = 24;

fn main(rt: HostRuntime) {
    for n in 1..=LAST {
        let begun = Line::output(&rt).number(u64::from(n)).text(b"\t");
        let _ = words::sentence(begun, n).end();
    }
}
