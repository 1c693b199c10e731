// The engine's steps over masks of events: it knows nothing of what the events are.
#![tactic(auto)]

ghost use Rattle.std.specs.Prelude.{◌+◌, ◌*◌, ◌/◌, ◌^◌, ◌<◌, ◌≡◌, length};
ghost use Rattle.masks.specs.Bit.{bit};
ghost use Rattle.successors.specs.CleanMasks.{slots, limit};
ghost use Rattle.successors.specs.Waiting.{Prepared};
ghost use Rattle.engine.specs.State.{LoadedAs};

use masks::has;
use ready_events::Masks;
use successors::SLOTS;

// The bits of `m` past bit `e`.
pub fn past(m: u32, e: u32) -> u32
    requires { e < limit }
    ensures { result ≡ m / 2 ^ (e + 1) * 2 ^ (e + 1) }
{
    (m >> (e + 1)) << (e + 1)
}

// Bit `e` of `m` is set; any byte may be asked for.
fn may(m: u32, e: u8) -> bool
    ensures { result ≡ bit m e }
{
    usize::from(e) < SLOTS && has(m, u32::from(e))
}

// Reads a start into the front of `order`, if it is clean: its masks. What stands behind it in `order` is of no account.
pub fn load(
    pred: &[u32; SLOTS],
    succ: &[u32; SLOTS],
    mem: u32,
    start: &[u8],
    order: &mut [u8; SLOTS],
) -> Option<Masks>
    requires { Prepared pred.now succ.now mem × (length order.old ≡ slots) }
    ensures { LoadedAs pred.now mem start.now order.new result }
{
    let mut placed: u32 = 0;
    let mut can = ready_events::ready_of(pred, mem, 0);
    for (len, &e) in start.iter().enumerate() {
        if !may(can, e) {
            return None;
        }
        order[len] = e;
        let masks = ready_events::place(pred, succ, mem, u32::from(e), placed, can);
        placed = masks.placed;
        can = masks.can;
    }
    Some(Masks { placed, can })
}
