// Lines 12 to 14: tests of a candidate's order and returned list against the table.
#![tactic(auto)]

ghost use Rattle.std.specs.Prelude.{◌≤◌, ◌<◌, ◌≡◌, cond, ◌&&◌, not, length, eqb};
ghost use Rattle.lists.specs.Below.{some};
ghost use Rattle.lists.specs.Lists.{all, count};
ghost use Rattle.table.specs.Events.{capacity, reads, memory};
ghost use Rattle.model.specs.Rules.{nothing, initially};
ghost use Rattle.model.specs.Witness.{is_memory_event};
ghost use Rattle.candidate.specs.CandidateLines.{writer_for, returned_wrong, order_wrong};

use reads_from::{INITIALLY, NOTHING, returned_from};
use table::{EventNo, Table};

// How often event e is in the order.
fn count_of(gmo: &[u8], e: EventNo) -> usize
    ensures { result ≡ count e.0 gmo.now }
{
    gmo.iter().filter(|w| e.0 == **w).count()
}

// Some memory event isn't in the order once.
fn some_not_once(t: Table, gmo: &[u8]) -> bool
    requires { t.count ≤ capacity }
    ensures { result ≡ some t.count (λ e. memory t e && not (eqb (count e gmo.now) 1)) }
{
    for e in 0..t.count {
        if table::memory(t.events[e as usize]) & (count_of(gmo, EventNo(e)) != 1) {
            return true;
        }
    }
    false
}

// e is a memory event of the test.
fn is_memory_event(t: &Table, e: u8) -> bool
    requires { t.now.count ≤ capacity }
    ensures { result ≡ is_memory_event t.now e }
{
    e < t.count && table::memory(t.events[e as usize])
}

// Every entry is one.
fn all_memory(t: Table, gmo: &[u8]) -> bool
    requires { t.count ≤ capacity }
    ensures { result ≡ all (is_memory_event t) gmo.now }
{
    gmo.iter().all(|e| is_memory_event(&t, *e))
}

// 13: the order isn't each memory event once.
pub fn order_wrong(t: Table, gmo: &[u8]) -> bool
    requires { t.count ≤ capacity }
    ensures { result ≡ order_wrong t gmo.now }
{
    !all_memory(t, gmo) | some_not_once(t, gmo)
}

// w is a writer of the test to the location of e.
fn writer_for(t: Table, e: EventNo, w: u8) -> bool
    requires { (t.count ≤ capacity) × (e.0 < capacity) }
    ensures { result ≡ writer_for t e.0 w }
{
    if w < t.count {
        let x = t.events[e.0 as usize];
        let y = t.events[w as usize];
        return table::writes(y) & table::same_location(y, x);
    }
    false
}

// The entry w of event e is wrong.
fn entry_wrong(t: Table, e: EventNo, w: u8) -> bool
    requires { (t.count ≤ capacity) × (e.0 < capacity) }
    ensures { result ≡ cond (reads t e.0) (not (eqb w initially) && not (writer_for t e.0 w)) (not (eqb w nothing)) }
{
    if table::reads(t.events[e.0 as usize]) {
        (w != INITIALLY) & !writer_for(t, e, w)
    } else {
        w != NOTHING
    }
}

// 14: some entry of the returned list is wrong.
pub fn returned_wrong(t: Table, rf: &[u8]) -> bool
    requires { (t.count ≤ capacity) × (length rf.now ≡ t.count) }
    ensures { result ≡ returned_wrong t rf.now }
{
    for e in 0..t.count {
        if entry_wrong(t, EventNo(e), returned_from(rf, EventNo(e))) {
            return true;
        }
    }
    false
}
