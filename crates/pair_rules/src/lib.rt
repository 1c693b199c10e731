// The answer on a table that was read and a pair of events: the rules by which one is before the other.
#![tactic(auto)]

ghost use Rattle.std.specs.Prelude.{◌≡◌, length};
ghost use Rattle.refusals.specs.Lines.{first_line, reply_unless};
ghost use Rattle.rule_sets.specs.RuleMask.{rules_in};
ghost use Rattle.table.specs.Counts.{Small};
ghost use Rattle.pair_rules.specs.PairRules.{returned_lines, rules_between, ruled_by};

use refusals::Refusal;
use table::{EventNo, Table};

// The set of rules by which a is before b, bit r - 1 for rule r; empty for numbers that are no memory events in program order.
fn held(t: Table, returned: &[u8], a: u64, b: u64) -> u16
    requires { Small t × (length returned.now ≡ t.count) }
    ensures { rules_in result ≡ rules_between t returned.now a b }
{
    if b >= u64::from(t.count) {
        return 0;
    }
    if a >= b {
        return 0;
    }
    let first = EventNo(a as u8);
    let second = EventNo(b as u8);
    if !table::may_order(first, t.events[a as usize], second, t.events[b as usize]) {
        return 0;
    }
    rules::rule_set(t, returned, first, second)
}

// The rules of a pair of a table: 12, 14, then the set.
pub fn pair(t: Table, returned: &[u8], a: u64, b: u64) -> Result<u16, Refusal>
    requires { Small t }
    ensures { ruled_by result ≡ reply_unless (first_line t.count (returned_lines t returned.now)) (rules_between t returned.now a b) }
{
    if returned.len() != usize::from(t.count) {
        return Err(Refusal::Line(12));
    }
    if candidate::returned_wrong(t, returned) {
        return Err(Refusal::Line(14));
    }
    Ok(held(t, returned, a, b))
}
