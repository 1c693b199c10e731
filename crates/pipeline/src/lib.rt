// Pipeline dependencies: rules 12 and 13. x is event a, y is event b, z is event m.
#![tactic(auto)]

ghost use Rattle.std.specs.Prelude.{◌≤◌, ◌<◌, ◌≡◌, length};
ghost use Rattle.lists.specs.Below.{some};
ghost use Rattle.table.specs.Events.{capacity};
ghost use Rattle.model.specs.Rules.{rule12, rule13};
ghost use Rattle.pipeline.specs.Between.{forwards, addresses};

use dependencies::{rule9, rule10};
use reads_from::returned_from;
use table::{EventNo, Table};

// The write w is a writer strictly between a and b, and its address or data depends on a.
fn some_forwards(t: Table, w: u8, a: EventNo, b: EventNo) -> bool
    requires { (a.0 < capacity) × (b.0 < capacity) × (t.count ≤ capacity) }
    ensures { result ≡ some t.count (forwards t w a.0 b.0) }
{
    let x = t.events[a.0 as usize];
    let y = t.events[b.0 as usize];
    for m in 0..t.count {
        let z = t.events[m as usize];
        if table::between(a, x, EventNo(m), z, b, y)
            & table::writes(z)
            & (w == m)
            & (rule9(a, z) | rule10(a, z))
        {
            return true;
        }
    }
    false
}

// "b reads from a writer m strictly between, whose address or data depends on a."
pub fn rule12(t: Table, rf: &[u8], a: EventNo, b: EventNo) -> bool
    requires { (a.0 < t.count) × (b.0 < t.count) × (t.count ≤ capacity) × (length rf.now ≡ t.count) }
    ensures { result ≡ rule12 t rf.now a.0 b.0 }
{
    if table::reads(t.events[b.0 as usize]) {
        some_forwards(t, returned_from(rf, b), a, b)
    } else {
        false
    }
}

// Some memory event strictly between a and b has an address dependency on a.
fn some_addresses(t: Table, a: EventNo, b: EventNo) -> bool
    requires { (a.0 < capacity) × (b.0 < capacity) × (t.count ≤ capacity) }
    ensures { result ≡ some t.count (addresses t a.0 b.0) }
{
    let x = t.events[a.0 as usize];
    let y = t.events[b.0 as usize];
    for m in 0..t.count {
        let z = t.events[m as usize];
        if table::between(a, x, EventNo(m), z, b, y) & table::memory(z) & rule9(a, z) {
            return true;
        }
    }
    false
}

// "b writes, and some m strictly between has an address dependency on a."
pub fn rule13(t: Table, a: EventNo, b: EventNo) -> bool
    requires { (a.0 < capacity) × (b.0 < capacity) × (t.count ≤ capacity) }
    ensures { result ≡ rule13 t a.0 b.0 }
{
    if table::writes(t.events[b.0 as usize]) {
        some_addresses(t, a, b)
    } else {
        false
    }
}
