// The rules of a pair as one set, and preserved program order (ppo). Each rule is a function of the crate that has the manual's
// heading for its name: overlap, synchronization, dependencies, pipeline.
#![tactic(auto)]

ghost use Rattle.std.specs.Prelude.{◌≤◌, ◌<◌, ◌≡◌, length};
ghost use Rattle.table.specs.Events.{capacity};
ghost use Rattle.model.specs.Rules.{rules, ppo};
ghost use Rattle.rule_sets.specs.RuleMask.{set_mask};

use dependencies::{rule9, rule10, rule11};
use overlap::{rule1, rule2, rule3};
use pipeline::{rule12, rule13};
use rule_sets::RULES;
use synchronization::{annotations, rule4, rule5, rule6, rule7, rule8};
use table::{EventNo, Table, may_order};

// Which of the thirteen hold, in their order.
fn rules(t: Table, rf: &[u8], a: EventNo, b: EventNo) -> [bool; RULES]
    requires { (a.0 < t.count) × (b.0 < t.count) × (t.count ≤ capacity) × (length rf.now ≡ t.count) }
    ensures { result ≡ rules t rf.now a.0 b.0 }
{
    let x = t.events[a.0 as usize];
    let y = t.events[b.0 as usize];
    let p = annotations(t.model, x);
    let q = annotations(t.model, y);
    let second = rule2(t, rf, a, b);
    let third = rule3(rf, a, x, b, y);
    let twelfth = rule12(t, rf, a, b);
    [
        rule1(x, y),
        second,
        third,
        rule4(t, a, b),
        rule5(p),
        rule6(q),
        rule7(p, q),
        rule8(t, a, b),
        rule9(a, y),
        rule10(a, y),
        rule11(a, y),
        twelfth,
        rule13(t, a, b),
    ]
}

// The set of the rules that hold: bit r - 1 for rule r.
pub fn rule_set(t: Table, rf: &[u8], a: EventNo, b: EventNo) -> u16
    requires { (a.0 < t.count) × (b.0 < t.count) × (t.count ≤ capacity) × (length rf.now ≡ t.count) }
    ensures { result ≡ set_mask (rules t rf.now a.0 b.0) }
{
    rule_sets::set_mask(rules(t, rf, a, b))
}

// Preserved program order puts a before b.
pub fn ppo(t: Table, rf: &[u8], a: EventNo, b: EventNo) -> bool
    requires { (a.0 < t.count) × (b.0 < t.count) × (t.count ≤ capacity) × (length rf.now ≡ t.count) }
    ensures { result ≡ ppo t rf.now a.0 b.0 }
{
    if may_order(a, t.events[a.0 as usize], b, t.events[b.0 as usize]) {
        rule_set(t, rf, a, b) != 0
    } else {
        false
    }
}
