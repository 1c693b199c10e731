// Load value, the values read, the final values: the lowest place where each is broken.
#![tactic(auto)]

ghost use Rattle.std.specs.Prelude.{◌≤◌, ◌<◌, ◌≡◌, SomeIff, length};
ghost use Rattle.lists.specs.Below.{lowest};
ghost use Rattle.edition.specs.Limits.{max_locations};
ghost use Rattle.table.specs.Events.{capacity};
ghost use Rattle.model.specs.Axioms.{breaks_load_value, breaks_value_read, breaks_final_value};

use reads_from::returned_from;
use returns::{final_value, return_of, written_value};
use table::{EventNo, LocationNo, Table};

// Reader r doesn't return from the write that the order determines.
fn breaks_load_value(t: Table, rf: &[u8], gmo: &[u8], r: EventNo) -> bool
    requires { (r.0 < t.count) × (t.count ≤ capacity) × (length rf.now ≡ t.count) }
    ensures { result ≡ breaks_load_value t rf.now gmo.now r.0 }
{
    if table::reads(t.events[r.0 as usize]) {
        returned_from(rf, r) != return_of(t, gmo, r)
    } else {
        false
    }
}

// The lowest such reader.
pub fn lowest_load_value(t: Table, rf: &[u8], gmo: &[u8]) -> Option<EventNo>
    requires { (t.count ≤ capacity) × (length rf.now ≡ t.count) }
    ensures { let r = lowest t.count (breaks_load_value t rf.now gmo.now) in SomeIff result (r < t.count) (record { 0 = r }) }
{
    for r in 0..t.count {
        if breaks_load_value(t, rf, gmo, EventNo(r)) {
            return Some(EventNo(r));
        }
    }
    None
}

// Reader r doesn't return its stated value.
fn breaks_value_read(t: Table, rf: &[u8], r: EventNo) -> bool
    requires { (r.0 < t.count) × (t.count ≤ capacity) × (length rf.now ≡ t.count) }
    ensures { result ≡ breaks_value_read t rf.now r.0 }
{
    let e = t.events[r.0 as usize];
    if table::reads(e) {
        written_value(t, e.location, returned_from(rf, r)) != e.read
    } else {
        false
    }
}

// The lowest such reader.
pub fn lowest_value_read(t: Table, rf: &[u8]) -> Option<EventNo>
    requires { (t.count ≤ capacity) × (length rf.now ≡ t.count) }
    ensures { let r = lowest t.count (breaks_value_read t rf.now) in SomeIff result (r < t.count) (record { 0 = r }) }
{
    for r in 0..t.count {
        if breaks_value_read(t, rf, EventNo(r)) {
            return Some(EventNo(r));
        }
    }
    None
}

// A final value is stated of location x, and the order leaves another.
fn breaks_final_value(t: Table, gmo: &[u8], x: LocationNo) -> bool
    requires { x.0 < max_locations }
    ensures { result ≡ breaks_final_value t gmo.now x.0 }
{
    if masks::has(t.stated as u32, x.0 as u32) {
        final_value(t, gmo, x) != t.finals[x.0 as usize]
    } else {
        false
    }
}

// The lowest such location.
pub fn lowest_final_value(t: Table, gmo: &[u8]) -> Option<LocationNo>
    requires { t.locations ≤ max_locations }
    ensures { let x = lowest t.locations (breaks_final_value t gmo.now) in SomeIff result (x < t.locations) (record { 0 = x }) }
{
    for x in 0..t.locations {
        if breaks_final_value(t, gmo, LocationNo(x)) {
            return Some(LocationNo(x));
        }
    }
    None
}
