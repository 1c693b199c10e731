// Atomicity: LR l is paired with SC s; it returned from the write f.
#![tactic(auto)]

ghost use Rattle.std.specs.Prelude.{◌≤◌, ◌<◌, ◌≡◌, SomeIff, length};
ghost use Rattle.lists.specs.Below.{lowest};
ghost use Rattle.table.specs.Events.{capacity};
ghost use Rattle.model.specs.Axioms.{write_is_late, intrudes, breaks_pair, breaks_atomicity, atomicity_writer};

use global_order::before;
use reads_from::{INITIALLY, returned_from};
use table::{EventNo, Kind, Table};

// The write that l returned from fails to precede s.
fn write_is_late(rf: &[u8], gmo: &[u8], l: EventNo, s: EventNo) -> bool
    requires { l.0 < length rf.now }
    ensures { result ≡ write_is_late rf.now gmo.now l.0 s.0 }
{
    let f = returned_from(rf, l);
    (f != INITIALLY) & !before(gmo, EventNo(f), s)
}

// Another hart's write w to l's location stands after the write that l returned from and before s.
fn intrudes(t: Table, rf: &[u8], gmo: &[u8], l: EventNo, s: EventNo, w: EventNo) -> bool
    requires { (l.0 < t.count) × (w.0 < t.count) × (t.count ≤ capacity) × (length rf.now ≡ t.count) }
    ensures { result ≡ intrudes t rf.now gmo.now l.0 s.0 w.0 }
{
    let x = t.events[l.0 as usize];
    let z = t.events[w.0 as usize];
    if table::writes(z) & table::same_location(z, x) & (z.hart != x.hart) {
        let f = returned_from(rf, l);
        ((f == INITIALLY) | before(gmo, EventNo(f), w)) & before(gmo, w, s)
    } else {
        false
    }
}

// The lowest such write.
fn lowest_intruder(t: Table, rf: &[u8], gmo: &[u8], l: EventNo, s: EventNo) -> Option<EventNo>
    requires { (l.0 < t.count) × (t.count ≤ capacity) × (length rf.now ≡ t.count) }
    ensures { let w = lowest t.count (intrudes t rf.now gmo.now l.0 s.0) in SomeIff result (w < t.count) (record { 0 = w }) }
{
    for w in 0..t.count {
        if intrudes(t, rf, gmo, l, s, EventNo(w)) {
            return Some(EventNo(w));
        }
    }
    None
}

// Atomicity breaks for l and s.
pub fn breaks_pair(t: Table, rf: &[u8], gmo: &[u8], l: EventNo, s: EventNo) -> bool
    requires { (l.0 < t.count) × (s.0 < t.count) × (t.count ≤ capacity) × (length rf.now ≡ t.count) }
    ensures { result ≡ breaks_pair t rf.now gmo.now l.0 s.0 }
{
    if table::paired(t, l, s) {
        write_is_late(rf, gmo, l, s) | lowest_intruder(t, rf, gmo, l, s).is_some()
    } else {
        false
    }
}

// The lowest SC for which it breaks at l.
fn lowest_sc(t: Table, rf: &[u8], gmo: &[u8], l: EventNo) -> Option<EventNo>
    requires { (l.0 < t.count) × (t.count ≤ capacity) × (length rf.now ≡ t.count) }
    ensures { let s = lowest t.count (breaks_pair t rf.now gmo.now l.0) in SomeIff result (s < t.count) (record { 0 = s }) }
{
    for s in 0..t.count {
        if breaks_pair(t, rf, gmo, l, EventNo(s)) {
            return Some(EventNo(s));
        }
    }
    None
}

// The lowest LR at which atomicity breaks. Of other events no call, which would copy the table.
pub fn lowest_lr(t: Table, rf: &[u8], gmo: &[u8]) -> Option<EventNo>
    requires { (t.count ≤ capacity) × (length rf.now ≡ t.count) }
    ensures { let l = lowest t.count (breaks_atomicity t rf.now gmo.now) in SomeIff result (l < t.count) (record { 0 = l }) }
{
    for l in 0..t.count {
        if t.events[l as usize].kind != Kind::LR {
            continue;
        }
        if lowest_sc(t, rf, gmo, EventNo(l)).is_some() {
            return Some(EventNo(l));
        }
    }
    None
}

// The writer named: "the lowest foreign writer between; if the write itself fails to precede, that write"
pub fn atomicity_writer(t: Table, rf: &[u8], gmo: &[u8], l: EventNo) -> EventNo
    requires { (l.0 < t.count) × (t.count ≤ capacity) × (length rf.now ≡ t.count) }
    ensures { result.0 ≡ atomicity_writer t rf.now gmo.now l.0 }
{
    let none = EventNo(t.count);
    let s = lowest_sc(t, rf, gmo, l).unwrap_or(none);
    if write_is_late(rf, gmo, l, s) {
        EventNo(returned_from(rf, l))
    } else {
        lowest_intruder(t, rf, gmo, l, s).unwrap_or(none)
    }
}
