// A litmus test by value, laid out as in C. Fields are wide enough to hold what reading refuses.
#![tactic(auto)]

ghost use Rattle.std.specs.Prelude.{◌≤◌, ◌<◌, ◌≡◌, ◌&&◌, eqb, ltb};
ghost use Rattle.lists.specs.Below.{some};
ghost use Rattle.table.specs.Events.{capacity, reading_kind, writing_kind, memory_kind, fencing_kind, memory_mask, reserves, paired, no_event};

use edition::EditionOne;
use masks::one_if;

// Room for 30 events and two more, so that every mask of events is a u32.
pub const CAPACITY: usize = 32;

// Room for the locations of every edition.
pub const LOCATIONS: usize = EditionOne::LOCATIONS;

// A number of an event of the table.
#[derive(Clone, Copy)]
pub struct EventNo(pub u8);

// A number of a location. The two can't be mixed.
#[repr(C)]
#[derive(Clone, Copy)]
pub struct LocationNo(pub u8);

// The kinds of events.
#[derive(Clone, Copy)]
pub struct Kind;

impl Kind {
    pub const LOAD: u8 = 1;

    pub const STORE: u8 = 2;

    pub const AMO: u8 = 3;

    pub const LR: u8 = 4;

    pub const SC: u8 = 5;

    pub const FENCE: u8 = 6;

    pub const FENCE_TSO: u8 = 7;
}

// The memory models.
#[derive(Clone, Copy)]
pub struct Model;

impl Model {
    pub const RVWMO: u8 = 0;

    pub const RVTSO: u8 = 1;
}

#[repr(C)]
#[derive(Clone, Copy)]
pub struct Event {
    pub kind: u8,
    pub hart: u8,
    pub location: LocationNo,
    pub flags: u8,
    pub addr: u32,
    pub data: u32,
    pub ctrl: u32,
    pub read: u16,
    pub written: u16,
    pub operation: u8,
    pub operand: u8,
}

// `count` is the number of events; slots past it are blank in a good table.
#[repr(C)]
#[derive(Clone, Copy)]
pub struct Table {
    pub harts: u8,
    pub locations: u8,
    pub count: u8,
    pub stated: u8,
    pub model: u8,
    pub initial: [u16; LOCATIONS],
    pub events: [Event; CAPACITY],
    pub finals: [u16; LOCATIONS],
}

// A blank: what stands in a slot past the events.
pub fn no_event() -> Event
    ensures { result ≡ no_event }
{
    Event {
        kind: 0,
        hart: 0,
        location: LocationNo(0),
        flags: 0,
        addr: 0,
        data: 0,
        ctrl: 0,
        read: 0,
        written: 0,
        operation: 0,
        operand: 0,
    }
}

// Tests of events take the events and not the table: a table by value is copied at each call.
pub fn reads(e: Event) -> bool
    ensures { result ≡ reading_kind e.kind }
{
    (e.kind == Kind::LOAD) | (e.kind == Kind::AMO) | (e.kind == Kind::LR)
}

pub fn writes(e: Event) -> bool
    ensures { result ≡ writing_kind e.kind }
{
    (e.kind == Kind::STORE) | (e.kind == Kind::AMO) | (e.kind == Kind::SC)
}

pub fn memory(e: Event) -> bool
    ensures { result ≡ memory_kind e.kind }
{
    reads(e) | writes(e)
}

pub fn fences(e: Event) -> bool
    ensures { result ≡ fencing_kind e.kind }
{
    (e.kind == Kind::FENCE) | (e.kind == Kind::FENCE_TSO)
}

pub fn same_location(a: Event, b: Event) -> bool
    ensures { result ≡ eqb a.location.0 b.location.0 }
{
    a.location.0 == b.location.0
}

// Program order of event a, which is x, and event b, which is y.
pub fn program_order(a: EventNo, x: Event, b: EventNo, y: Event) -> bool
    ensures { result ≡ (ltb a.0 b.0 && eqb x.hart y.hart) }
{
    (a.0 < b.0) & (x.hart == y.hart)
}

// "a is earlier on the same hart, both are memory events"
pub fn may_order(a: EventNo, x: Event, b: EventNo, y: Event) -> bool
    ensures { result ≡ (ltb a.0 b.0 && eqb x.hart y.hart && memory_kind x.kind && memory_kind y.kind) }
{
    program_order(a, x, b, y) & memory(x) & memory(y)
}

// Event m, which is z, is strictly between a and b in program order.
pub fn between(a: EventNo, x: Event, m: EventNo, z: Event, b: EventNo, y: Event) -> bool
    ensures { result ≡ (ltb a.0 m.0 && eqb x.hart z.hart && (ltb m.0 b.0 && eqb z.hart y.hart)) }
{
    program_order(a, x, m, z) & program_order(m, z, b, y)
}

// Some LR or SC is strictly between a and b.
fn some_reserves(t: Table, a: EventNo, b: EventNo) -> bool
    requires { (a.0 < capacity) × (b.0 < capacity) × (t.count ≤ capacity) }
    ensures { result ≡ some t.count (reserves t a.0 b.0) }
{
    let x = t.events[usize::from(a.0)];
    let y = t.events[usize::from(b.0)];
    for m in 0..t.count {
        let z = t.events[usize::from(m)];
        if between(a, x, EventNo(m), z, b, y) & ((z.kind == Kind::LR) | (z.kind == Kind::SC)) {
            return true;
        }
    }
    false
}

// LR a is paired with SC b.
pub fn paired(t: Table, a: EventNo, b: EventNo) -> bool
    requires { (a.0 < capacity) × (b.0 < capacity) × (t.count ≤ capacity) }
    ensures { result ≡ paired t a.0 b.0 }
{
    let x = t.events[usize::from(a.0)];
    let y = t.events[usize::from(b.0)];
    program_order(a, x, b, y) & (x.kind == Kind::LR) & (y.kind == Kind::SC)
        && !some_reserves(t, a, b)
}

// The mask of the memory events.
pub fn memory_mask(t: Table) -> u32
    requires { t.count ≤ capacity }
    ensures { result ≡ memory_mask t }
{
    let mut mask: u32 = 0;
    for e in 0..t.count {
        mask |= one_if(memory(t.events[usize::from(e)]), e);
    }
    mask
}
