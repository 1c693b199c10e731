// A table as one line of numbers, for the programs that print what was read.
#![tactic(auto)]

use console::Line;
use table::{Event, LOCATIONS, Table};

fn values(line: Line, list: &[u16; LOCATIONS]) -> Line {
    let mut filled = line.text(b" /");
    for v in list {
        filled = filled.value(b" ", *v);
    }
    filled
}

fn event(line: Line, e: &Event) -> Line {
    line.text(b" /")
        .spaced(u64::from(e.kind))
        .spaced(u64::from(e.hart))
        .spaced(u64::from(e.location.0))
        .spaced(u64::from(e.flags))
        .spaced(u64::from(e.addr))
        .spaced(u64::from(e.data))
        .spaced(u64::from(e.ctrl))
        .value(b" ", e.read)
        .value(b" ", e.written)
        .spaced(u64::from(e.operation))
        .spaced(u64::from(e.operand))
}

pub fn fields(line: Line, t: &Table) -> Line {
    let header = line
        .text(b"table")
        .spaced(u64::from(t.harts))
        .spaced(u64::from(t.locations))
        .spaced(u64::from(t.count))
        .spaced(u64::from(t.stated))
        .spaced(u64::from(t.model));
    let mut filled = values(values(header, &t.initial), &t.finals);
    for e in t.events.iter().take(usize::from(t.count)) {
        filled = event(filled, e);
    }
    filled
}
