// Preserved order: the lowest pair that the order breaks.
ghost use Rattle.std.specs.Prelude.{◌≤◌, ◌<◌, ◌≡◌, length};
ghost use Rattle.table.specs.Events.{capacity};
ghost use Rattle.model.specs.Axioms.{breaks_ppo};
ghost use Rattle.verdict.specs.Pairs.{FindsPair};

use global_order::before;
use table::{EventNo, Table, may_order};

// Event numbers a and b.
#[derive(Clone, Copy)]
pub struct Pair {
    pub a: EventNo,
    pub b: EventNo,
}

// Preserved order puts a before b, and the order doesn't.
fn breaks_ppo(t: Table, rf: &[u8], gmo: &[u8], a: EventNo, b: EventNo) -> bool
    requires { (a.0 < t.count) × (b.0 < t.count) × (t.count ≤ capacity) × (length rf.now ≡ t.count) }
    ensures { result ≡ breaks_ppo t rf.now gmo.now a.0 b.0 }
{
    if rules::ppo(t, rf, a, b) {
        !before(gmo, a, b)
    } else {
        false
    }
}

// "the lowest a, and for that a the lowest b". Of a pair that no rule can order no call, which would copy the table.
pub fn lowest_pair(t: Table, rf: &[u8], gmo: &[u8]) -> Option<Pair>
    requires { (t.count ≤ capacity) × (length rf.now ≡ t.count) }
    ensures { FindsPair t.count (breaks_ppo t rf.now gmo.now) result }
{
    for a in 0..t.count {
        let x = t.events[a as usize];
        for b in 0..t.count {
            if !may_order(EventNo(a), x, EventNo(b), t.events[b as usize]) {
                continue;
            }
            if breaks_ppo(t, rf, gmo, EventNo(a), EventNo(b)) {
                return Some(Pair {
                    a: EventNo(a),
                    b: EventNo(b),
                });
            }
        }
    }
    None
}
