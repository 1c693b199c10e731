// Syntactic dependencies: rules 9 to 11. y is event b.
#![tactic(auto)]

ghost use Rattle.std.specs.Prelude.{◌<◌, ◌≡◌, ◌&&◌};
ghost use Rattle.masks.specs.Bit.{bit};
ghost use Rattle.table.specs.Events.{capacity, writing_kind};

use table::{Event, EventNo};

// "b's address depends on a."
pub fn rule9(a: EventNo, y: Event) -> bool
    requires { a.0 < capacity }
    ensures { result ≡ bit y.addr a.0 }
{
    masks::has(y.addr, a.0 as u32)
}

// "b's data depends on a."
pub fn rule10(a: EventNo, y: Event) -> bool
    requires { a.0 < capacity }
    ensures { result ≡ bit y.«data» a.0 }
{
    masks::has(y.data, a.0 as u32)
}

// "b writes and has a control dependency on a": a load doesn't wait for it.
pub fn rule11(a: EventNo, y: Event) -> bool
    requires { a.0 < capacity }
    ensures { result ≡ (writing_kind y.kind && bit y.ctrl a.0) }
{
    table::writes(y) & masks::has(y.ctrl, a.0 as u32)
}
