// The table of refusals: its answers, and its test of a range. The lines themselves are the crates named so.
#![tactic(auto)]

ghost use Rattle.std.specs.Prelude.{◌≡◌};
ghost use Rattle.refusals.specs.TableLines.{outside};

use table::EventNo;

// Why something is refused: the number of the first line that holds, and the record that it names, if it names one.
#[derive(Clone, Copy)]
pub enum Refusal {
    Line(u8),
    Record(u8, EventNo),
}

// n is not one of 1 .. most.
pub fn outside(n: u8, most: usize) -> bool
    ensures { result ≡ outside n most }
{
    (n == 0) | (most < n as usize)
}
