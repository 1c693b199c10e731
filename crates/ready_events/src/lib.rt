// The mask of the events that may come next, kept as an event is placed or taken back, so that not all are asked again.
#![tactic(auto)]

ghost use Rattle.std.specs.Prelude.{ℕ, ◌^◌, ◌<◌, ◌≡◌, true, ◌&&◌, get_or};
ghost use Rattle.std.specs.Int.Bits.{bit_and, bit_or, bit_xor};
ghost use Rattle.masks.specs.Bit.{bit};
ghost use Rattle.successors.specs.CleanMasks.{slots, ready};
ghost use Rattle.successors.specs.Waiting.{Prepared};
ghost use Rattle.ready_events.specs.Current.{Current};

use masks::{Ones, one, within};
use successors::SLOTS;

// Of a prefix: its events, and those that may come next.
#[derive(Clone, Copy)]
pub struct Masks {
    pub placed: u32,
    pub can: u32,
}

// The events of `rest` that are ready. No other is looked at.
pub fn ready_of(pred: &[u32; SLOTS], rest: u32, placed: u32) -> u32
    ensures { (k : ℕ) → bit result k ≡ (bit rest k && ready pred.now placed k) }
{
    let mut found: u32 = 0;
    for k in Ones(rest) {
        if within(pred[k as usize], placed) {
            found |= one(k);
        }
    }
    found
}

// The masks once `e` is placed: of the events not placed yet only those that wait for `e` can have become ready.
pub fn place(
    pred: &[u32; SLOTS],
    succ: &[u32; SLOTS],
    mem: u32,
    e: u32,
    placed: u32,
    can: u32,
) -> Masks
    requires { Prepared pred.now succ.now mem × Current pred.now mem placed can × (bit can e ≡ true) }
    ensures { (result.placed ≡ bit_or placed (2 ^ e)) × Current pred.now mem result.placed result.can }
{
    let b = one(e);
    let after = placed | b;
    let rest = mem ^ (mem & after);
    let found = ready_of(pred, succ[e as usize] & rest, after);
    Masks {
        placed: after,
        can: (can ^ b) | found,
    }
}

// The masks once `e`, the last that was placed, is taken back: those that wait for it may not come next, and it may.
pub fn take_back(succ: &[u32; SLOTS], e: u32, placed: u32, can: u32) -> Masks
    requires { e < slots }
    ensures placed_value { result.placed ≡ bit_xor placed (2 ^ e) }
    ensures can_value { result.can ≡ bit_or (bit_xor can (bit_and can (get_or succ.now e 0))) (2 ^ e) }
{
    let b = one(e);
    Masks {
        placed: placed ^ b,
        can: (can ^ (can & succ[e as usize])) | b,
    }
}
