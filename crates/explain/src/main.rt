// The verdict for one candidate of standard input, in words.
#![tactic(auto)]

use console::{Command, Line};
use edition::EditionTwo;
use reads_from::{INITIALLY, NOTHING};
use refusals::Refusal;
use table::{Event, EventNo, LocationNo, Table};
use verdict::{Axiom, Verdict};

// Longer than a candidate, so that one that is too long is refused.
const INPUT: usize = EditionTwo::TEST + 2 * EditionTwo::EVENTS + 1;

// No returned list is longer.
const LIST: usize = EditionTwo::EVENTS;

const RULES: u8 = 13;

fn usage(rt: &HostRuntime) {
    let printed = console::print(
        rt,
        b"\
explain: the verdict of the RISC-V memory model for one candidate, in words

    explain <CANDIDATE

CANDIDATE is, one after the other:
  the test             a block of 512 bytes, or three of them in edition 2: a test with its stated outcome
  the returned list    a byte for each event: the event whose write a reader returns from, 255 for the initial value,
                       and 254 for an event that doesn't read
  the order            a byte for each memory event: the global memory order, by event numbers

The answer is 'allowed', or the first of preserved order, load value, atomicity, value read and final value that the
candidate breaks, with its place; or the refusal of what was handed in. If reading or writing failed, standard error says so.
",
    );
    if let Err(e) = printed {
        console::output_failed(rt, b"explain", e);
    }
}

fn event(line: Line, e: EventNo) -> Line {
    line.item(b"event ", e.0)
}

// What a reader returns from.
fn source(line: Line, w: u8) -> Line {
    if w == INITIALLY {
        line.text(b"the initial value")
    } else {
        event(line, EventNo(w))
    }
}

// The entry of event e in a returned list.
fn entry(list: &[u8], e: EventNo) -> u8 {
    list.get(usize::from(e.0)).copied().unwrap_or(NOTHING)
}

fn kind(line: Line, k: u8) -> Line {
    let table = b"
load
store
AMO
LR
SC
";
    line.text(console::row(table, k))
}

// The instruction of an operation.
fn operation(line: Line, n: u8) -> Line {
    let table = b"
amoadd
amoand
amoor
amoxor
amomaxu
amominu
";
    line.text(console::row(table, n))
}

fn written(line: Line, e: &Event) -> Line {
    let value = line.value(b", writes ", e.written);
    if e.operation == 0 {
        value
    } else {
        operation(value.text(b" ("), e.operation)
            .item(b" ", e.operand)
            .text(b")")
    }
}

fn values(line: Line, e: &Event) -> Line {
    let read = if table::reads(*e) {
        line.value(b", reads ", e.read)
    } else {
        line
    };
    if table::writes(*e) {
        written(read, e)
    } else {
        read
    }
}

// Goes on with a line that says what event k is.
fn describe(line: Line, t: &Table, k: EventNo) -> Line {
    let Some(e) = t.events.get(usize::from(k.0)) else {
        return line;
    };
    let begun = event(line.text(b"\n  "), k)
        .item(b": hart ", e.hart)
        .text(b", ");
    let placed = kind(begun, e.kind).item(b" at location ", e.location.0);
    values(placed, e)
}

// A rule by its number, and why it orders the two.
fn rule(line: Line, first: bool, r: u8) -> Line {
    let begun = if first {
        line.item(b" by rule ", r)
    } else {
        line.item(b" and rule ", r)
    };
    words::rule(begun.text(b" ("), r).text(b")")
}

// Each rule of a set, bit r - 1 for rule r.
fn rules(line: Line, set: u16) -> Line {
    let mut named = line;
    let mut first = true;
    for r in 1..=RULES {
        if (set >> (r - 1)) % 2 == 1 {
            named = rule(named, first, r);
            first = false;
        }
    }
    named
}

fn preserved_order(rt: &HostRuntime, t: &Table, a: EventNo, b: EventNo, set: u16) -> Line {
    let first = event(Line::output(rt).text(b"preserved order: "), a).text(b" before ");
    let said = rules(event(first, b), set)
        .item(b", but the order has ", b.0)
        .text(b" first");
    describe(describe(said, t, a), t, b)
}

fn load_value(
    rt: &HostRuntime,
    t: &Table,
    test: &[u8],
    returned: &[u8],
    order: &[u8],
    r: EventNo,
) -> Line {
    let mut list = [NOTHING; LIST];
    let _ = bench::returns(test, order, &mut list);
    let reader = event(Line::output(rt).text(b"load value: "), r).text(b" returns from ");
    let given = source(reader, entry(returned, r)).text(b", but the order makes it return from ");
    describe(source(given, entry(&list, r)), t, r)
}

// The other case of the axiom, that what the LR returns from doesn't precede the SC, can't come up once preserved order and
// load value hold.
fn atomicity(rt: &HostRuntime, t: &Table, returned: &[u8], lr: EventNo, w: EventNo) -> Line {
    let reader = Line::output(rt)
        .item(b"atomicity: LR ", lr.0)
        .text(b" returns from ");
    let between = source(reader, entry(returned, lr)).text(b", but ");
    let said = event(between, w).text(b" of another hart writes between that and its SC");
    describe(describe(said, t, lr), t, w)
}

fn value_read(rt: &HostRuntime, t: &Table, returned: &[u8], r: EventNo) -> Line {
    let reader = event(Line::output(rt).text(b"value read: "), r);
    let Some(e) = t.events.get(usize::from(r.0)) else {
        return reader;
    };
    let w = entry(returned, r);
    let said = reader
        .value(b" is stated to read ", e.read)
        .value(b", but returns ", returns::written_value(*t, e.location, w))
        .text(b" from ");
    describe(source(said, w), t, r)
}

fn final_value(rt: &HostRuntime, t: &Table, order: &[u8], x: LocationNo) -> Line {
    let location = Line::output(rt).item(b"final value: location ", x.0);
    let Some(stated) = t.finals.get(usize::from(x.0)) else {
        return location;
    };
    location.value(b" is stated to end at ", *stated).value(
        b", but the order leaves ",
        returns::final_value(*t, order, x),
    )
}

fn broken(
    rt: &HostRuntime,
    axiom: Axiom,
    t: &Table,
    test: &[u8],
    returned: &[u8],
    order: &[u8],
) -> Line {
    match axiom {
        Axiom::PreservedOrder(a, b, set) => preserved_order(rt, t, a, b, set),
        Axiom::LoadValue(r) => load_value(rt, t, test, returned, order, r),
        Axiom::Atomicity(lr, w) => atomicity(rt, t, returned, lr, w),
        Axiom::ValueRead(r) => value_read(rt, t, returned, r),
        Axiom::FinalValue(x) => final_value(rt, t, order, x),
    }
}

// The input begins with the test, as a suite does. The returned list has an entry for each event of it, and what follows is the
// order. The refusal of a test comes before those of the lists.
fn verdict(rt: &HostRuntime, input: &[u8]) -> Result<Line, Refusal> {
    let test = suite_walk::test(input, 0);
    let lists = console::past(input, test.len());
    let t = bench::read(test)?;
    let n = usize::from(t.count);
    let returned = console::front(lists, n);
    let order = console::past(lists, n);
    Ok(match bench::verdict(test, returned, order)? {
        Verdict::Allowed => {
            Line::output(rt).text(b"allowed: the order gives the stated outcome and breaks no rule")
        }
        Verdict::Broken(axiom) => broken(rt, axiom, &t, test, returned, order),
    })
}

fn candidate(rt: &HostRuntime, input: &[u8]) {
    let said = match verdict(rt, input) {
        Ok(line) => line,
        Err(r) => words::explained(Line::output(rt), r),
    };
    if let Err(e) = said.end() {
        console::output_failed(rt, b"explain", e);
    }
}

fn explain(rt: &HostRuntime) {
    let mut buffer = [0u8; INPUT];
    match console::fill(rt, &mut buffer) {
        Err(e) => console::input_failed(rt, b"explain", e),
        Ok(0) => usage(rt),
        Ok(n) => candidate(rt, console::front(&buffer, n)),
    }
}

fn main(rt: HostRuntime) {
    match console::asked(&rt) {
        Command::Run => explain(&rt),
        Command::Help => usage(&rt),
        Command::Unknown => console::unknown_argument(&rt, b"explain"),
    }
}
