// Reads a stream of tables (the fields in their order, then the length of a buffer, two bytes) and prints what writing each to
// such a buffer gives.
#![tactic(auto)]

use console::{byte_or_zero, word};
use table::{CAPACITY, Event, LOCATIONS, LocationNo, Table};

// No buffer of a stream is longer.
const LONGEST: usize = 2048;

fn mask(rt: &HostRuntime) -> u32 {
    u32::from_le_bytes(std::array::from_fn(|_| byte_or_zero(rt)))
}

fn event(rt: &HostRuntime) -> Event {
    Event {
        kind: byte_or_zero(rt),
        hart: byte_or_zero(rt),
        location: LocationNo(byte_or_zero(rt)),
        flags: byte_or_zero(rt),
        addr: mask(rt),
        data: mask(rt),
        ctrl: mask(rt),
        read: word(rt),
        written: word(rt),
        operation: byte_or_zero(rt),
        operand: byte_or_zero(rt),
    }
}

fn events(rt: &HostRuntime) -> [Event; CAPACITY] {
    std::array::from_fn(|_| event(rt))
}

fn values(rt: &HostRuntime) -> [u16; LOCATIONS] {
    std::array::from_fn(|_| word(rt))
}

// A table whose first byte was read.
fn table(rt: &HostRuntime, harts: u8) -> Table {
    Table {
        harts,
        locations: byte_or_zero(rt),
        count: byte_or_zero(rt),
        stated: byte_or_zero(rt),
        model: byte_or_zero(rt),
        initial: values(rt),
        events: events(rt),
        finals: values(rt),
    }
}

fn line(rt: &HostRuntime, k: u64, t: Table, out: &mut [u8]) {
    let begun = calls::begin(rt, k);
    let said = match bench::write(t, out) {
        Ok(()) => begun.text(b"written"),
        Err(r) => words::refused(begun, r),
    };
    calls::end(said, out);
}

// One table; none at the end of the input.
fn turn(rt: &HostRuntime, k: u64) -> Option<()> {
    let t = table(rt, console::byte(rt)?);
    let n = usize::from(word(rt));
    let mut buffer = [calls::PREFILL; LONGEST];
    if let Some(out) = buffer.get_mut(..n) {
        line(rt, k, t, out);
    }
    Some(())
}

fn main(rt: HostRuntime) {
    for k in 0..u64::MAX {
        if turn(&rt, k).is_none() {
            return;
        }
    }
}
