// What an order makes each reader return, and the values that writes leave.
#![tactic(auto)]

ghost use Rattle.std.specs.Prelude.{◌≤◌, ◌<◌, ◌≡◌, ◌&&◌, ◌||◌, not, ◌++◌, length, drop, eqb, ltb};
ghost use Rattle.lists.specs.Lists.{last_or, before};
ghost use Rattle.table.specs.Events.{capacity, event, writing_kind};
ghost use Rattle.model.specs.Rules.{initially};
ghost use Rattle.model.specs.Returns.{return_of, return_entry, returns, initial_value, written_value, final_value};
ghost use Rattle.returns.specs.Writers.{writes_to};

use global_order::before;
use reads_from::{INITIALLY, NOTHING};
use table::{Event, EventNo, LocationNo, Table};

// Event k of the table; past its slots there are blank ones.
fn event_of(t: Table, k: EventNo) -> Event
    ensures { result ≡ event t k.0 }
{
    t.events
        .get(k.0 as usize)
        .copied()
        .unwrap_or_else(table::no_event)
}

// w, which is x, is a writer to the location of reader r, which is y, that precedes r in the order or in program order, never r
// itself.
fn visible(gmo: &[u8], r: EventNo, y: Event, w: EventNo, x: Event) -> bool
    ensures { result ≡ (
        writing_kind x.kind && eqb x.location.0 y.location.0 && not (eqb w.0 r.0)
        && (before gmo.now w.0 r.0 || ltb w.0 r.0 && eqb x.hart y.hart)) }
{
    if table::writes(x) & table::same_location(x, y) & (w.0 != r.0) {
        before(gmo, w, r) | table::program_order(w, x, r, y)
    } else {
        false
    }
}

// The write that the order makes r return from: the latest in it that r can see. Past the table's slots there are blank events,
// which nobody sees.
pub fn return_of(t: Table, gmo: &[u8], r: EventNo) -> u8
    requires { r.0 < capacity }
    ensures { result ≡ return_of t gmo.now r.0 }
{
    let y = t.events[r.0 as usize];
    let mut latest = INITIALLY;
    for &w in gmo {
        if table::CAPACITY <= w as usize {
            continue;
        }
        if visible(gmo, r, y, EventNo(w), t.events[w as usize]) {
            latest = w;
        }
    }
    latest
}

// An entry of the returned list that the order determines.
fn return_entry(t: Table, gmo: &[u8], e: EventNo) -> u8
    requires { e.0 < capacity }
    ensures { result ≡ return_entry t gmo.now e.0 }
{
    if table::reads(t.events[e.0 as usize]) {
        return_of(t, gmo, e)
    } else {
        NOTHING
    }
}

// Writes that list to the front of `out`; what stands past it stays.
pub fn determine(t: Table, gmo: &[u8], out: &mut [u8])
    requires { (t.count ≤ capacity) × (t.count ≤ length out.old) }
    ensures { out.new ≡ returns t gmo.now ++ drop t.count out.old }
{
    for e in 0..t.count {
        out[e as usize] = return_entry(t, gmo, EventNo(e));
    }
}

fn initial_value(t: Table, x: LocationNo) -> u16
    ensures { result ≡ initial_value t x.0 }
{
    t.initial.get(x.0 as usize).copied().unwrap_or(0)
}

// The value that the write w, or the initial write, leaves at location x.
pub fn written_value(t: Table, x: LocationNo, w: u8) -> u16
    ensures { result ≡ written_value t x.0 w }
{
    if w == INITIALLY {
        initial_value(t, x)
    } else {
        event_of(t, EventNo(w)).written
    }
}

fn writes_to(t: Table, x: LocationNo, w: EventNo) -> bool
    ensures { result ≡ writes_to t x.0 w.0 }
{
    let e = event_of(t, w);
    table::writes(e) & (e.location.0 == x.0)
}

// The last write to location x in the order.
pub fn last_writer(t: Table, gmo: &[u8], x: LocationNo) -> u8
    ensures { result ≡ last_or (writes_to t x.0) initially gmo.now }
{
    let mut latest = INITIALLY;
    for &w in gmo {
        if writes_to(t, x, EventNo(w)) {
            latest = w;
        }
    }
    latest
}

// The value that the order leaves at location x.
pub fn final_value(t: Table, gmo: &[u8], x: LocationNo) -> u16
    ensures { result ≡ final_value t gmo.now x.0 }
{
    written_value(t, x, last_writer(t, gmo, x))
}
