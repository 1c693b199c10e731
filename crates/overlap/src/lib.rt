// Overlapping-address orderings: rules 1 to 3. x is event a, y is event b.
#![tactic(auto)]

ghost use Rattle.std.specs.Prelude.{◌≤◌, ◌<◌, ◌≡◌, ◌&&◌, ◌||◌, eqb, length};
ghost use Rattle.lists.specs.Below.{some};
ghost use Rattle.table.specs.Events.{capacity, reading_kind, writing_kind, amo, sc};
ghost use Rattle.model.specs.Rules.{from, rule2};
ghost use Rattle.overlap.specs.Between.{overwrites};

use reads_from::returned_from;
use table::{Event, EventNo, Kind, Table};

// "b writes, same location."
pub fn rule1(x: Event, y: Event) -> bool
    ensures { result ≡ (writing_kind y.kind && eqb x.location.0 y.location.0) }
{
    table::writes(y) & table::same_location(x, y)
}

// Some writer to a's location is strictly between a and b.
fn some_overwrites(t: Table, a: EventNo, b: EventNo) -> bool
    requires { (a.0 < capacity) × (b.0 < capacity) × (t.count ≤ capacity) }
    ensures { result ≡ some t.count (overwrites t a.0 b.0) }
{
    let x = t.events[a.0 as usize];
    let y = t.events[b.0 as usize];
    for m in 0..t.count {
        let z = t.events[m as usize];
        if table::between(a, x, EventNo(m), z, b, y)
            & table::writes(z)
            & table::same_location(z, x)
        {
            return true;
        }
    }
    false
}

// "Both read one location, no writer to it strictly between, and they return from different writes": writes, not values.
pub fn rule2(t: Table, rf: &[u8], a: EventNo, b: EventNo) -> bool
    requires { (a.0 < t.count) × (b.0 < t.count) × (t.count ≤ capacity) × (length rf.now ≡ t.count) }
    ensures { result ≡ rule2 t rf.now a.0 b.0 }
{
    let x = t.events[a.0 as usize];
    let y = t.events[b.0 as usize];
    let differ = returned_from(rf, a) != returned_from(rf, b);
    if table::reads(x) & table::reads(y) & table::same_location(x, y) & differ {
        !some_overwrites(t, a, b)
    } else {
        false
    }
}

// "a is an AMO or SC, b reads and returns from a."
pub fn rule3(rf: &[u8], a: EventNo, x: Event, b: EventNo, y: Event) -> bool
    requires { b.0 < length rf.now }
    ensures { result ≡ (
        (eqb x.kind amo || eqb x.kind sc) && reading_kind y.kind && eqb (from rf.now b.0) a.0) }
{
    ((x.kind == Kind::AMO) | (x.kind == Kind::SC)) & table::reads(y) & (returned_from(rf, b) == a.0)
}
