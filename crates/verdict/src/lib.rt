// The verdict for a candidate: a returned list, rf, and a global memory order, gmo.
#![tactic(auto)]

mod pairs;

ghost use Rattle.std.specs.Prelude.{◌≤◌, ◌≡◌, length};
ghost use Rattle.edition.specs.Limits.{max_locations};
ghost use Rattle.table.specs.Events.{capacity};
ghost use Rattle.model.specs.Verdict.{verdict};
ghost use Rattle.verdict.specs.Judged.{judged_of};

use table::{EventNo, LocationNo, Table};

// What is broken, with its place; a preserved-order pair with the set of its rules, bit r - 1 for rule r.
#[derive(Clone, Copy)]
pub enum Axiom {
    PreservedOrder(EventNo, EventNo, u16),
    LoadValue(EventNo),
    Atomicity(EventNo, EventNo),
    ValueRead(EventNo),
    FinalValue(LocationNo),
}

#[derive(Clone, Copy)]
pub enum Verdict {
    Allowed,
    Broken(Axiom),
}

// The first that is broken, in the stated order, for a candidate that nothing refuses.
pub fn judge(t: Table, rf: &[u8], gmo: &[u8]) -> Verdict
    requires { (t.count ≤ capacity) × (t.locations ≤ max_locations) × (length rf.now ≡ t.count) }
    ensures { judged_of result ≡ verdict t rf.now gmo.now }
{
    if let Some(pair) = pairs::lowest_pair(t, rf, gmo) {
        let a = pair.a;
        let b = pair.b;
        let set = rules::rule_set(t, rf, a, b);
        return Verdict::Broken(Axiom::PreservedOrder(a, b, set));
    }
    if let Some(r) = stated_values::lowest_load_value(t, rf, gmo) {
        return Verdict::Broken(Axiom::LoadValue(r));
    }
    if let Some(l) = atomicity::lowest_lr(t, rf, gmo) {
        let w = atomicity::atomicity_writer(t, rf, gmo, l);
        return Verdict::Broken(Axiom::Atomicity(l, w));
    }
    if let Some(r) = stated_values::lowest_value_read(t, rf) {
        return Verdict::Broken(Axiom::ValueRead(r));
    }
    if let Some(x) = stated_values::lowest_final_value(t, gmo) {
        return Verdict::Broken(Axiom::FinalValue(x));
    }
    Verdict::Allowed
}
