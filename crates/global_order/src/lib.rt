// The global memory order, gmo: a list of event numbers.
#![tactic(auto)]

ghost use Rattle.std.specs.Prelude.{◌≡◌};
ghost use Rattle.lists.specs.Lists.{before};

use table::EventNo;

// a is in the order, and b stands after it.
pub fn before(gmo: &[u8], a: EventNo, b: EventNo) -> bool
    ensures { result ≡ before gmo.now a.0 b.0 }
{
    let mut seen = false;
    for &w in gmo {
        if seen & (b.0 == w) {
            return true;
        }
        seen |= a.0 == w;
    }
    false
}
