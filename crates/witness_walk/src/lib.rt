// The walk through the prefixes of a table, ascending, with a counted budget; it stops at the first witness of what is looked for.
#![tactic(auto)]

ghost use Rattle.std.specs.Prelude.{◌+◌, ◌<◌, ◌≡◌, cond, ◌⊎◌, length, get_or, set, eqb};
ghost use Rattle.std.specs.Int.Count.{ones};
ghost use Rattle.masks.specs.Bit.{bit};
ghost use Rattle.table.specs.Events.{capacity};
ghost use Rattle.successors.specs.CleanMasks.{slots};
ghost use Rattle.successors.specs.Waiting.{Prepared};
ghost use Rattle.engine.specs.State.{Holds};
ghost use Rattle.order_test.specs.Testing.{Fitting};
ghost use Rattle.witness_walk.specs.Running.{EntersBy, good_behind, Follows, LeftOf, Runs, AtMost};

use fact_rows::{GOOD, ROWS, SETS};
use masks::{has, lowest_set, mask_if, one};
use ready_events::Masks;
use successors::SLOTS;
use table::CAPACITY;

// The prefix of Found and Spent stands at the front of the order.
#[derive(Clone, Copy)]
pub enum Ending {
    Found { len: usize, visited: u64 },
    NoneLeft { visited: u64 },
    Spent { len: usize, visited: u64 },
}

// A prefix at the front of the order: the number of its entries, its masks, and the events that are still to be tried behind it.
#[derive(Clone, Copy)]
pub struct Path {
    pub keep: usize,
    pub masks: Masks,
    pub later: u32,
}

// The length of a prefix is the ones of its mask.
fn found(placed: u32, visited: u64) -> Ending
    ensures { result ≡ Ending.Found (ones placed) visited }
{
    Ending::Found {
        len: u32::count_ones(placed) as usize,
        visited,
    }
}

fn spent(placed: u32, visited: u64) -> Ending
    ensures { result ≡ Ending.Spent (ones placed) visited }
{
    Ending::Spent {
        len: u32::count_ones(placed) as usize,
        visited,
    }
}

// A prefix with `e` behind it is entered: `e` isn't watched, or reads its stated value, by the mask of the good before it.
fn enters(facts: &[[u32; CAPACITY]; ROWS], watched: u32, placed: u32, good: u32, e: u8) -> bool
    requires { e < capacity }
    ensures { EntersBy (bit watched e) facts.now placed good e result }
{
    !has(watched, u32::from(e)) || order_test::reads_stated(facts, placed, good, e)
}

// Keeps the mask of the good behind `e`, which stands behind `keep` entries. Where no reader is watched, none is asked for.
fn note_good(
    facts: &[[u32; CAPACITY]; ROWS],
    watched: u32,
    goods: &mut [u32; SLOTS],
    keep: usize,
    e: u8,
)
    requires { (length goods.old ≡ slots) × (keep + 1 < slots) × (e < capacity) }
    ensures { goods.new ≡ cond (eqb watched 0) goods.old
        (set goods.old (keep + 1) (good_behind facts.now (get_or goods.old keep 0) e)) }
{
    if watched != 0 {
        goods[keep + 1] = order_test::good_after(facts, goods[keep], e);
    }
}

// Follows the clean start at the front of the order as the walk would, unless a proper prefix isn't entered: the events that are
// to be tried behind its last entry are all that may come next if it is entered, else none. The masks of the good are kept on the way.
pub fn follow(
    facts: &[[u32; CAPACITY]; ROWS],
    watched: u32,
    order: &[u8; SLOTS],
    len: usize,
    can: u32,
    goods: &mut [u32; SLOTS],
) -> Option<u32>
    requires { Fitting order.now len × (len < slots) × (length goods.old ≡ slots) }
    ensures follows { Follows facts.now watched order.now goods.new len can result }
    ensures left_of { LeftOf can result × (length goods.new ≡ slots) }
{
    goods[0] = facts[SETS][GOOD];
    let mut placed: u32 = 0;
    let mut entered = true;
    for (i, &e) in order[..len].iter().enumerate() {
        if !entered {
            return None;
        }
        entered = enters(facts, watched, placed, goods[i], e);
        note_good(facts, watched, goods, i, e);
        placed |= one(u32::from(e));
    }
    Some(mask_if(entered, can))
}

// Visits the prefixes greater than the order's, ascending. The budget is tested once the next prefix is known and before it is
// stored: "spent" keeps the last prefix visited, and there must be a further one. A prefix that isn't entered, or is a whole
// order, is passed over: what goes on with it isn't visited.
pub fn walk(
    facts: &[[u32; CAPACITY]; ROWS],
    words: &[u32],
    pred: &[u32; SLOTS],
    succ: &[u32; SLOTS],
    mem: u32,
    watched: u32,
    order: &mut [u8; SLOTS],
    goods: &mut [u32; SLOTS],
    from: Path,
    budget: u64,
) -> Ending
    requires prepared { Prepared pred.now succ.now mem × Holds pred.now mem order.old from.keep from.masks.placed from.masks.can }
    requires fact { ((from.later ≡ from.masks.can) ⊎ (from.later ≡ 0)) × (length goods.old ≡ slots) }
    ensures runs { Runs facts.now words.now pred.now mem watched order.old goods.old from budget result order.new }
    ensures order_len { (length order.new ≡ slots) × AtMost (ones mem) result }
{
    let mut keep = from.keep;
    let mut masks = from.masks;
    let mut later = from.later;
    let mut last = masks.placed;
    let mut visited: u64 = 0;
    let mut seen = [0u8; SLOTS];
    let mut kept = condition_test::first(words);
    loop {
        if later == 0 {
            if keep == 0 {
                return Ending::NoneLeft { visited };
            }
            keep -= 1;
            let e = u32::from(order[keep]);
            masks = ready_events::take_back(succ, e, masks.placed, masks.can);
            later = engine::past(masks.can, e);
            continue;
        }
        if visited == budget {
            return spent(last, visited);
        }
        let e = lowest_set(later);
        order[keep] = e as u8;
        visited += 1;
        let b = one(e);
        last = masks.placed | b;
        later ^= b;
        if !enters(facts, watched, masks.placed, goods[keep], e as u8) {
            continue;
        }
        if last == mem {
            if condition_test::is_witness(facts, words, &*order, keep + 1, &mut seen, &mut kept) {
                return found(last, visited);
            }
            continue;
        }
        note_good(facts, watched, goods, keep, e as u8);
        masks = ready_events::place(pred, succ, mem, e, masks.placed, masks.can);
        later = masks.can;
        keep += 1;
    }
}
