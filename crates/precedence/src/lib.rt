// The static part of preserved program order (static ppo) of a table, as the engine's masks: a row for each event, made of sets of
// events and of masks that run along them, so that no pair of events is asked.
#![tactic(auto)]

ghost use Rattle.std.specs.Prelude.{◌+◌, ◌<◌, ◌≡◌, get_or};
ghost use Rattle.std.specs.Int.Bits.{bit_and};
ghost use Rattle.edition.specs.Limits.{max_harts, max_locations};
ghost use Rattle.table.specs.Events.{capacity};
ghost use Rattle.table.specs.Counts.{Small};
ghost use Rattle.event_sets.specs.Sets.{set_of, sets_of};
ghost use Rattle.precedence.specs.Precedence.{predecessor_mask, predecessor_masks};
ghost use Rattle.precedence.specs.Passed.{OfEvent, AtEvent, precedes, before_reads, before_writes, passed_at};

use event_sets::Sets;
use masks::{has, mask_if, one_if};
use successors::SLOTS;
use synchronization::{Flag, flagged};
use table::{Event, EventNo, Kind, Table};

// Masks of events before the one that is looked at. They are of every hart; a row keeps those of its event's hart.
#[derive(Clone, Copy)]
struct Passed {
    // The memory events.
    memory: u32,
    // Those that the address of a memory event behind them depends on.
    addressed: u32,
    // Those that a fence behind them puts before reads, and before writes.
    before_reads: u32,
    before_writes: u32,
    // The LRs that no LR or SC of their hart stands behind.
    reserved: u32,
}

// The memory events before `e` on its hart.
fn earlier(s: Sets, p: Passed, e: Event) -> u32
    requires { e.hart < max_harts }
    ensures { result ≡ bit_and (get_or s.harts e.hart 0) p.memory }
{
    s.harts[e.hart as usize] & p.memory
}

// The predecessor set of fence `f`: "a reads and pr or a writes and pw". What is no fence, or a fence.tso, has none.
fn predecessor_set(s: Sets, f: Event) -> u32
    ensures { OfEvent s f (λ t k. result ≡ set_of t (precedes t k)) }
{
    let readers = mask_if(flagged(f, Flag::PR), s.readers);
    let writers = mask_if(flagged(f, Flag::PW), s.writers);
    mask_if(f.kind == Kind::FENCE, readers | writers)
}

// The events that `f`, if it is a fence, puts before reads.
fn before_reads(s: Sets, f: Event) -> u32
    ensures { OfEvent s f (λ t k. result ≡ set_of t (before_reads t k)) }
{
    mask_if(flagged(f, Flag::SR), predecessor_set(s, f))
        | mask_if(f.kind == Kind::FENCE_TSO, s.readers)
}

// Those that it puts before writes.
fn before_writes(s: Sets, f: Event) -> u32
    ensures { OfEvent s f (λ t k. result ≡ set_of t (before_writes t k)) }
{
    mask_if(flagged(f, Flag::SW), predecessor_set(s, f))
        | mask_if(f.kind == Kind::FENCE_TSO, s.readers | s.writers)
}

// The masks once event k, which is `e`, is passed.
fn pass(s: Sets, p: Passed, k: EventNo, e: Event) -> Passed
    requires { (k.0 < capacity) × (e.hart < max_harts) }
    ensures { AtEvent s p k.0 e (λ t. result ≡ passed_at t (k.0 + 1)) }
{
    let own = earlier(s, p, e);
    let memory = table::memory(e);
    let reserves = (e.kind == Kind::LR) | (e.kind == Kind::SC);
    let left = p.reserved & mask_if(reserves, own);
    Passed {
        memory: p.memory | one_if(memory, k.0),
        addressed: p.addressed | mask_if(memory, own & e.addr),
        before_reads: p.before_reads | own & before_reads(s, e),
        before_writes: p.before_writes | own & before_writes(s, e),
        reserved: p.reserved ^ left | one_if(e.kind == Kind::LR, k.0),
    }
}

// The mask of the steady predecessors of event b, which is `y`: those of the memory events before it that rules 1, 4 (for what
// reads, for what writes), 5 to 11 and 13 take, in this order.
fn row(s: Sets, p: Passed, b: EventNo, y: Event) -> u32
    requires { (b.0 < capacity) × (y.hart < max_harts) × (y.location.0 < max_locations) }
    ensures { AtEvent s p b.0 y (λ t. result ≡ predecessor_mask t b.0) }
{
    if !table::memory(y) {
        return 0;
    }
    let own = earlier(s, p, y);
    let reads = table::reads(y);
    let writes = table::writes(y);
    own & (mask_if(writes, s.locations[y.location.0 as usize])
        | mask_if(reads, p.before_reads)
        | mask_if(writes, p.before_writes)
        | s.acquires
        | mask_if(has(s.releases, b.0 as u32), own)
        | mask_if(has(s.rcscs, b.0 as u32), s.rcscs)
        | mask_if(y.kind == Kind::SC, p.reserved)
        | y.addr
        | y.data
        | mask_if(writes, y.ctrl)
        | mask_if(writes, p.addressed))
}

// For each event the mask of its steady predecessors; none past the events.
pub fn predecessors(t: Table, s: Sets) -> [u32; SLOTS]
    requires { Small t × (s ≡ sets_of t) }
    ensures { result ≡ predecessor_masks t }
{
    let mut rows = [0u32; SLOTS];
    let mut p = Passed {
        memory: 0,
        addressed: 0,
        before_reads: 0,
        before_writes: 0,
        reserved: 0,
    };
    for b in 0..t.count {
        let y = t.events[b as usize];
        rows[b as usize] = row(s, p, EventNo(b), y);
        p = pass(s, p, EventNo(b), y);
    }
    rows
}
