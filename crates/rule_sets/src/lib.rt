// A set of rules as a mask: bit r - 1 for rule r.
#![tactic(auto)]

ghost use Rattle.std.specs.Prelude.{◌≡◌};
ghost use Rattle.rule_sets.specs.RuleMask.{set_mask, lowest_in};

pub const RULES: usize = 13;

// The set of the tests that hold: the first is bit 0.
pub fn set_mask(held: [bool; RULES]) -> u16
    ensures { result ≡ set_mask held }
{
    let mut set: u16 = 0;
    for k in (0..RULES).rev() {
        set = set * 2 + u16::from(held[k]);
    }
    set
}

// The lowest rule of a set; 0 for none.
pub fn lowest_rule(set: u16) -> u8
    ensures { result ≡ lowest_in set }
{
    if set == 0 {
        return 0;
    }
    set.trailing_zeros() as u8 + 1
}
