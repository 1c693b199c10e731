// A call that lists outcomes of a table: what it is refused for, the walk from one lawful order to the next, and the least outcomes
// above the previous one, handed out.
#![tactic(auto)]

ghost use Rattle.std.specs.Prelude.{◌+◌, ◌*◌, ◌≤◌, ◌<◌, ◌≡◌, not, ◌&&◌, eqb, length, take, Ok};
ghost use Rattle.std.specs.Int.Count.{ones};
ghost use Rattle.lists.specs.Reply.{answered};
ghost use Rattle.edition.specs.Limits.{max_locations};
ghost use Rattle.masks.specs.MaskOf.{mask_of};
ghost use Rattle.table.specs.Events.{memory_mask};
ghost use Rattle.ready_events.specs.Current.{Current};
ghost use Rattle.successors.specs.CleanMasks.{slots};
ghost use Rattle.successors.specs.Waiting.{Prepared};
ghost use Rattle.engine.specs.State.{Holds};
ghost use Rattle.order_test.specs.Testing.{Fitting};
ghost use Rattle.event_sets.specs.Sets.{sets_of};
ghost use Rattle.placing.specs.GoodTable.{GoodTable};
ghost use Rattle.witness_walk.specs.Running.{AtMost};
ghost use Rattle.outcomes.specs.Outcomes.{readers};
ghost use Rattle.outcome_values.specs.Giving.{row_length};
ghost use Rattle.outcome_listing.specs.Gathering.{Walks, NextLawful, Notes, Gathers, Within, Fits, gathered_as};
ghost use Rattle.outcome_listing.specs.Replies.{most_outcomes, table_listing, places_after, listing_of, values_in, values_of};

use event_sets::Sets;
use fact_rows::ROWS;
use ready_events::Masks;
use refusals::Refusal;
use sorted_rows::{PLACES, ROW};
use successors::SLOTS;
use table::{CAPACITY, Table};
use witness_walk::{Ending, Path};

// The answer; the outcomes stand one behind the other at the front of the answer buffer.
#[derive(Clone, Copy)]
pub enum Listing {
    Listed { outcomes: u8, values: u8 },
    NoneLeft,
    Spent,
}

// The walk from a prefix on to the next lawful order: any will do.
fn next_lawful(
    facts: &[[u32; CAPACITY]; ROWS],
    pred: &[u32; SLOTS],
    succ: &[u32; SLOTS],
    mem: u32,
    order: &mut [u8; SLOTS],
    from: Path,
    budget: u64,
) -> Ending
    requires prepared { Prepared pred.now succ.now mem × Holds pred.now mem order.old from.keep from.masks.placed from.masks.can }
    requires later_value { from.later ≡ from.masks.can }
    ensures next_lawful { NextLawful facts.now pred.now mem (take from.keep order.old) budget order.new result }
    ensures order_len { (length order.new ≡ slots) × AtMost (ones mem) result }
{
    let words = [condition_test::ANY];
    let mut goods = [0u32; SLOTS];
    witness_walk::walk(
        facts, &words, pred, succ, mem, 0, order, &mut goods, from, budget,
    )
}

// What is asked for: the values of these readers, and how many outcomes at most.
#[derive(Clone, Copy)]
pub struct Asked {
    pub readers: u32,
    pub room: usize,
}

// Puts what the lawful order at the front of the array gives among the n rows kept, if it is above the previous outcome.
fn note(
    facts: &[[u32; CAPACITY]; ROWS],
    order: &[u8; CAPACITY],
    len: usize,
    locations: u8,
    asked: Asked,
    previous: &[u16],
    kept: &mut [u16],
    n: usize,
) -> usize
    requires fitting { Fitting order.now len × (locations ≤ max_locations) }
    requires n_le_room { (n ≤ asked.room) × (row_length * asked.room ≤ length kept.old) }
    ensures notes { Notes facts.now (take len order.now) locations asked previous.now n kept.old result kept.new }
    ensures upper_bound { (result ≤ asked.room) × (length kept.new ≡ length kept.old) }
{
    let mut value = [0u16; ROW];
    let width = outcome_values::outcome(facts, order, len, asked.readers, locations, &mut value);
    if sorted_rows::above(previous, &value, width) {
        sorted_rows::insert(kept, n, asked.room, width, &value)
    } else {
        n
    }
}

// The path before the first prefix.
fn before_all(pred: &[u32; SLOTS], mem: u32) -> Path
    ensures { (result.keep ≡ 0) × (result.masks.placed ≡ 0) × Current pred.now mem 0 result.masks.can × (result.later ≡ result.masks.can) }
{
    let can = ready_events::ready_of(pred, mem, 0);
    let masks = Masks { placed: 0, can };
    Path {
        keep: 0,
        masks,
        later: can,
    }
}

// The path behind a whole order.
fn behind(len: usize, mem: u32) -> Path
    ensures { (result.keep ≡ len) × (result.masks.placed ≡ mem) × (result.masks.can ≡ 0) × (result.later ≡ 0) }
{
    let masks = Masks {
        placed: mem,
        can: 0,
    };
    Path {
        keep: len,
        masks,
        later: 0,
    }
}

// Gathers the least outcomes above the previous one, by a walk over all lawful orders: how many rows these are, or none where
// there are more prefixes than it may visit.
fn gather(
    t: Table,
    facts: &[[u32; CAPACITY]; ROWS],
    pred: &[u32; SLOTS],
    succ: &[u32; SLOTS],
    asked: Asked,
    previous: &[u16],
    kept: &mut [u16],
    budget: u64,
) -> Option<usize>
    requires walks { Walks t facts.now pred.now × Prepared pred.now succ.now (memory_mask t) }
    requires readers_value { (asked.readers ≡ mask_of (readers t)) × (row_length * asked.room ≤ length kept.old) }
    ensures gathers { Gathers t asked.room previous.now budget result kept.new }
    ensures within { Within asked.room result × (length kept.new ≡ length kept.old) }
{
    let mem = table::memory_mask(t);
    let mut order = [0u8; SLOTS];
    let mut from = before_all(pred, mem);
    let mut left = budget;
    let mut n: usize = 0;
    loop {
        let ending = next_lawful(facts, pred, succ, mem, &mut order, from, left);
        match ending {
            Ending::NoneLeft { visited } => {
                return Some(n);
            }
            Ending::Spent { len, visited } => {
                return None;
            }
            Ending::Found { len, visited } => {
                left -= visited;
                n = note(facts, &order, len, t.locations, asked, previous, kept, n);
                from = behind(len, mem);
            }
        }
    }
}

// Prepares a table's masks and facts, once, and gathers.
fn gather_of(
    t: Table,
    s: Sets,
    asked: Asked,
    previous: &[u16],
    kept: &mut [u16],
    budget: u64,
) -> Option<usize>
    requires good_table { GoodTable t × (s ≡ sets_of t) × (asked.readers ≡ s.readers) }
    requires room_in_bounds { row_length * asked.room ≤ length kept.old }
    ensures gathers { Gathers t asked.room previous.now budget result kept.new }
    ensures within { Within asked.room result × (length kept.new ≡ length kept.old) }
{
    let mut facts = facts::of_table(t, s);
    value_rows::add_values(t, s, &mut facts);
    let pred = precedence::predecessors(t, s);
    let succ = successors::successors(&pred, table::memory_mask(t));
    gather(t, &facts, &pred, &succ, asked, previous, kept, budget)
}

// Hands out what was gathered.
fn deliver(gathered: Option<usize>, width: u8, kept: &[u16], out: &mut [u16]) -> Listing
    requires { Within most_outcomes gathered × Fits width (length kept.now) gathered × Fits width (length out.old) gathered }
    ensures out_after { listing_of (Ok result) out.new ≡ answered (gathered_as gathered width kept.now) }
    ensures out_after_2 { out.new ≡ places_after (answered (gathered_as gathered width kept.now)) out.old }
    ensures result_value { values_of (Ok result) ≡ values_in (answered (gathered_as gathered width kept.now)) }
{
    match gathered {
        None => Listing::Spent,
        Some(n) => {
            if n == 0 {
                return Listing::NoneLeft;
            }
            sorted_rows::copy_rows(kept, usize::from(width) * n, out);
            Listing::Listed {
                outcomes: n as u8,
                values: width,
            }
        }
    }
}

// How many values an outcome has.
fn values_of(readers: u32, locations: u8) -> u8
    requires { locations ≤ max_locations }
    ensures { result ≡ ones readers + locations }
{
    u32::count_ones(readers) as u8 + locations
}

// A list of so many values is neither empty nor as long as an outcome.
fn is_no_outcome(len: usize, width: usize) -> bool
    ensures { result ≡ (not (eqb len 0) && not (eqb len width)) }
{
    (len != 0) & (len != width)
}

// A call for the outcomes that come next after the previous one, at most so many: refusals 12, 16 and 17, the reply and the buffer.
pub fn list(
    t: Table,
    previous: &[u16],
    out: &mut [u16],
    most: usize,
    allowance: u64,
) -> Result<Listing, Refusal>
    requires { GoodTable t × (0 < t.locations) × (most ≤ most_outcomes) }
    ensures out_after { listing_of result out.new ≡ table_listing t most previous.now out.old allowance }
    ensures out_after_2 { out.new ≡ places_after (table_listing t most previous.now out.old allowance) out.old }
    ensures result_value { values_of result ≡ values_in (table_listing t most previous.now out.old allowance) }
{
    let s = event_sets::of_table(t);
    let readers = s.readers;
    let values = values_of(readers, t.locations);
    let width = usize::from(values);
    if is_no_outcome(previous.len(), width) {
        return Err(Refusal::Line(12));
    }
    if out.len() < width {
        return Err(Refusal::Line(16));
    }
    if search::ALLOWANCE < allowance {
        return Err(Refusal::Line(17));
    }
    let asked = Asked {
        readers,
        room: most.min(out.len() / width),
    };
    let mut kept = [0u16; PLACES];
    let gathered = gather_of(t, s, asked, previous, &mut kept, allowance);
    Ok(deliver(gathered, values, &kept, out))
}
