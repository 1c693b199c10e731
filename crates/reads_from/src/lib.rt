// The returned list, rf (reads-from): for each event the number of the write that it returned from.
#![tactic(auto)]

ghost use Rattle.std.specs.Prelude.{◌<◌, ◌≡◌, length};
ghost use Rattle.model.specs.Rules.{from};

use table::EventNo;

// A non-reader's entry.
pub const NOTHING: u8 = 254;

// The entry of a reader that returns from the initial write.
pub const INITIALLY: u8 = 255;

// What event e returned from.
pub fn returned_from(rf: &[u8], e: EventNo) -> u8
    requires { e.0 < length rf.now }
    ensures { result ≡ from rf.now e.0 }
{
    rf[e.0 as usize]
}
