// Lines 9 and 10: tests of a record against the other records of its hart.
#![tactic(auto)]

ghost use Rattle.std.specs.Prelude.{◌≤◌, ◌<◌, ◌≡◌, ◌&&◌, not, eqb};
ghost use Rattle.std.specs.Int.Bits.{bit_or};
ghost use Rattle.lists.specs.Below.{some};
ghost use Rattle.masks.specs.Bit.{bit};
ghost use Rattle.table.specs.Events.{capacity, writing_kind, paired, same_location};
ghost use Rattle.refusals.specs.TableLines.{names_wrongly, data_of_non_writer, lacks_control, line9, paired_here, line10};
ghost use Rattle.dependency_lines.specs.Passing.{may_break, reserved_after, after, Clears};

use edition::EditionOne;
use masks::{Ones, one_if};
use table::{Event, EventNo, Kind, Table};

// The events that one of the three masks of `e` names.
fn named(e: Event) -> u32
    ensures { result ≡ bit_or (bit_or e.addr e.«data») e.ctrl }
{
    e.addr | e.data | e.ctrl
}

// Of the events that one of the three masks of event k names, some isn't earlier on its hart, or is a plain store or a fence.
fn some_names_wrongly(t: Table, k: EventNo) -> bool
    requires { k.0 < capacity }
    ensures { result ≡ some capacity (names_wrongly t k.0) }
{
    let e = t.events[usize::from(k.0)];
    let names = named(e);
    for m in Ones(names) {
        let z = t.events[m as usize];
        if !table::program_order(EventNo(m as u8), z, k, e)
            | (z.kind == Kind::STORE)
            | table::fences(z)
        {
            return true;
        }
    }
    false
}

// b lacks a bit of a.
fn lacks(a: u32, b: u32) -> bool
    ensures { result ≡ some capacity (λ m. bit a m && not (bit b m)) }
{
    !masks::within(a, b)
}

fn some_lacks_control(t: Table, k: EventNo) -> bool
    requires { (k.0 < capacity) × (t.count ≤ capacity) }
    ensures { result ≡ some t.count (lacks_control t k.0) }
{
    let e = t.events[usize::from(k.0)];
    if e.ctrl == 0 {
        return false;
    }
    for j in 0..t.count {
        let z = t.events[usize::from(j)];
        if table::program_order(k, e, EventNo(j), z) & table::memory(z) & lacks(e.ctrl, z.ctrl) {
            return true;
        }
    }
    false
}

// None of the event's three masks names an event.
pub fn depends_on_none(e: Event) -> bool
    ensures { result ≡ (eqb e.addr 0 && eqb e.«data» 0 && eqb e.ctrl 0) }
{
    (e.addr == 0) & (e.data == 0) & (e.ctrl == 0)
}

pub fn line9(t: Table, k: EventNo) -> bool
    requires { (k.0 < capacity) × (t.count ≤ capacity) }
    ensures { result ≡ line9 t k.0 }
{
    let e = t.events[usize::from(k.0)];
    some_names_wrongly(t, k) | (!table::writes(e) & (e.data != 0)) | some_lacks_control(t, k)
}

// Some LR to the same location is paired with event k.
fn some_paired(t: Table, k: EventNo) -> bool
    requires { (k.0 < capacity) × (t.count ≤ capacity) }
    ensures { result ≡ some t.count (paired_here t k.0) }
{
    let e = t.events[usize::from(k.0)];
    for l in 0..t.count {
        if table::paired(t, EventNo(l), k) & table::same_location(t.events[usize::from(l)], e) {
            return true;
        }
    }
    false
}

pub fn line10(t: Table, k: EventNo) -> bool
    requires { (k.0 < capacity) × (t.count ≤ capacity) }
    ensures { result ≡ line10 t k.0 }
{
    if t.events[usize::from(k.0)].kind == Kind::SC {
        !some_paired(t, k)
    } else {
        false
    }
}

// Of a hart's events before the one that is looked at.
#[derive(Clone, Copy)]
struct Passed {
    // Those that a mask may name.
    sources: u32,
    // The control bits of them all.
    controls: u32,
    // One more than the location of the last LR, if no SC stands behind it.
    reserved: u16,
}

// `e` may break line 9 or 10, by what its hart has passed.
fn may_break(p: Passed, e: Event) -> bool
    ensures { result ≡ may_break p e }
{
    lacks(named(e), p.sources)
        | (!table::writes(e) & (e.data != 0))
        | (table::memory(e) & lacks(p.controls, e.ctrl))
        | ((e.kind == Kind::SC) & (p.reserved != u16::from(e.location.0) + 1))
}

fn reserved_after(reserved: u16, e: Event) -> u16
    ensures { result ≡ reserved_after reserved e }
{
    if e.kind == Kind::LR {
        return u16::from(e.location.0) + 1;
    }
    if e.kind == Kind::SC {
        return 0;
    }
    reserved
}

// The same once event k, which is `e`, is passed.
fn after(p: Passed, k: EventNo, e: Event) -> Passed
    requires { k.0 < capacity }
    ensures { result ≡ after p k.0 e }
{
    let nameable = (e.kind != Kind::STORE) & !table::fences(e);
    Passed {
        sources: p.sources | one_if(nameable, k.0),
        controls: p.controls | e.ctrl,
        reserved: reserved_after(p.reserved, e),
    }
}

// Line 9 or 10 may hold of some event: if not, it holds of none. One pass for all, as good tables are many, and a table by value
// is copied at each call.
pub fn some_may_break(t: Table) -> bool
    requires { t.count ≤ capacity }
    ensures { Clears t result }
{
    let none = Passed {
        sources: 0,
        controls: 0,
        reserved: 0,
    };
    let mut harts = [none; EditionOne::HARTS];
    for k in 0..t.count {
        let e = t.events[k as usize];
        let h = e.hart as usize;
        if EditionOne::HARTS <= h {
            return true;
        }
        let p = harts[h];
        if may_break(p, e) {
            return true;
        }
        harts[h] = after(p, EventNo(k), e);
    }
    false
}
