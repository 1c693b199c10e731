// For each event the mask of those that wait for it: placing the event can make only these ready.
#![tactic(auto)]

ghost use Rattle.std.specs.Prelude.{◌^◌, ◌<◌, ◌≡◌, length};
ghost use Rattle.successors.specs.CleanMasks.{slots, limit};
ghost use Rattle.successors.specs.Waiting.{Added, Prepared};

use masks::{Ones, one};

// The bits of a mask, and the entries of an order.
pub const SLOTS: usize = 32;

// Event `k` waits for each of `preds`: it goes to their masks of those that wait.
fn add_waiting(succ: &mut [u32; SLOTS], preds: u32, k: u32)
    requires { (length succ.old ≡ slots) × (k < slots) }
    ensures { Added succ.old preds k succ.new }
{
    let b = one(k);
    for e in Ones(preds) {
        succ[e as usize] |= b;
    }
}

// For each event the mask of the events of `mem` that wait for it.
pub fn successors(pred: &[u32; SLOTS], mem: u32) -> [u32; SLOTS]
    requires { mem < 2 ^ limit }
    ensures { Prepared pred.now result mem }
{
    let mut succ = [0u32; SLOTS];
    for k in Ones(mem) {
        add_waiting(&mut succ, pred[k as usize], k);
    }
    succ
}
