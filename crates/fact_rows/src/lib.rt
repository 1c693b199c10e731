// The rows of a table's facts (crate `order_facts`), each from sets of events.
#![tactic(auto)]

ghost use Rattle.std.specs.Prelude.{suc, ◌<◌};
ghost use Rattle.table.specs.Events.{capacity};
ghost use Rattle.order_facts.specs.Facts.{own_writer, needed, here, peers};
ghost use Rattle.fact_rows.specs.Around.{Row, GuardRow, RereadRow, PairRow, WindowRow, GroundRow, Stating};

use masks::{Ones, from, highest_set, less, lowest_set, mask_if, one, under};
use table::{CAPACITY, Event, Kind};

// The rows of the facts: for each event the mask of those that its word says (crate `order_facts`).
pub const OWN: usize = 0;

pub const NEEDS: usize = 1;

pub const WINDOW: usize = 2;

pub const GROUND: usize = 3;

pub const GUARDS: usize = 4;

pub const HERE: usize = 5;

pub const RIGHT: usize = 6;

pub const PEERS: usize = 7;

// A row of words.
pub const SETS: usize = 8;

// What the values of a text are told by: for each event its location, the value that it states to write, and its operation and
// operand; for each location the mask of the writers to it, and its initial value. For a block these rows stay empty.
pub const PLACES: usize = 9;

pub const WRITTEN: usize = 10;

pub const ACTIONS: usize = 11;

// What an operand counts for in a word of that row: operations are bytes, and so are operands.
pub const OPERAND: u32 = 256;

pub const WRITERS: usize = 12;

pub const INITIAL: usize = 13;

pub const ROWS: usize = 14;

// The words of the row `SETS`.
pub const GOOD: usize = 0;

pub const WRONG: usize = 1;

pub const UNMET: usize = 2;

// Of a text: the mask of the events with an operation.
pub const OPERATED: usize = 3;

// An event with its number, the number of events, the readers and the writers, the events at its location and those of its hart.
#[derive(Clone, Copy)]
pub struct Around {
    pub count: u8,
    pub number: u8,
    pub event: Event,
    pub readers: u32,
    pub writers: u32,
    pub place: u32,
    pub hart: u32,
}

// Of a reader the writers at its location that are earlier on its hart.
pub fn own_row(a: Around) -> u32
    requires { a.number < capacity }
    ensures { Row own_writer a result }
{
    let x = a.event;
    if table::reads(x) {
        a.writers & a.place & under(a.hart, a.number as u32)
    } else {
        0
    }
}

// Of a writer the readers at its location.
pub fn here_row(a: Around) -> u32
    ensures { Row here a result }
{
    let x = a.event;
    if table::writes(x) {
        a.readers & a.place
    } else {
        0
    }
}

// Of a writer the others at its location.
pub fn peer_row(a: Around) -> u32
    requires { a.number < capacity }
    ensures { Row peers a result }
{
    let x = a.event;
    if table::writes(x) {
        less(a.writers & a.place, one(a.number as u32))
    } else {
        0
    }
}

// What has to be placed before `a` is returned from: what its address or data depends on, and itself unless it is a plain store.
pub fn needs_row(a: Around) -> u32
    requires { (a.number < capacity) × (a.count < capacity) }
    ensures { Row needed a result }
{
    let x = a.event;
    let named = under(x.addr | x.data, a.count as u32);
    if x.kind == Kind::STORE {
        named
    } else {
        named | one(a.number as u32)
    }
}

// Of a writer the events at its location, of other harts, that have a window.
pub fn guard_row(a: Around, windows: u32) -> u32
    ensures { GuardRow windows a result }
{
    let x = a.event;
    if table::writes(x) {
        less(a.place, a.hart) & windows
    } else {
        0
    }
}

// Of a reader that doesn't write those that read again: the later readers of its hart at its location, up to the first that
// writes there.
pub fn reread_row(a: Around) -> u32
    requires { suc a.number < capacity }
    ensures { RereadRow a result }
{
    let x = a.event;
    if !table::reads(x) {
        return 0;
    }
    let later = from(a.hart, a.number as u32 + 1);
    let again = a.readers & a.place & later;
    let stops = a.writers & a.place & later;
    if stops == 0 {
        return again;
    }
    let first = lowest_set(stops);
    under(again, first) | (again & one(first))
}

// Of an SC the LR that is paired with it: the nearest LR or SC before it on its hart, if that is an LR.
pub fn pair_row(a: Around, reserving: u32, lrs: u32) -> u32
    requires { a.number < capacity }
    ensures { PairRow reserving lrs a result }
{
    let x = a.event;
    if x.kind != Kind::SC {
        return 0;
    }
    let before = reserving & under(a.hart, a.number as u32);
    if before == 0 {
        return 0;
    }
    lrs & one(highest_set(before))
}

// The window of an event: of a writer the LR that is paired with it, else what reads again.
pub fn window_row(a: Around, reserving: u32) -> u32
    requires { suc a.number < capacity }
    ensures { WindowRow reserving a result }
{
    let x = a.event;
    if table::writes(x) {
        // Of the LRs and SCs the LRs read.
        pair_row(a, reserving, reserving & a.readers)
    } else {
        reread_row(a)
    }
}

// What has to be placed before the window is open: the own writers, of a writer those of the LR that is paired with it.
pub fn ground_row(a: Around, window: u32) -> u32
    requires { a.number < capacity }
    ensures { GroundRow window a result }
{
    let x = a.event;
    if !table::writes(x) {
        return own_row(a);
    }
    if window == 0 {
        return 0;
    }
    a.writers & a.place & under(a.hart, lowest_set(window))
}

// Of the readers in a mask those that state the value; `stated` has what each states.
pub fn right_row(stated: &[u16; CAPACITY], readers: u32, value: u16) -> u32
    ensures { Stating stated.now readers value result }
{
    let mut mask: u32 = 0;
    for r in Ones(readers) {
        mask |= mask_if(stated[r as usize] == value, one(r));
    }
    mask
}
