// Which fences to add: the sets of clear fences are tried one after the other, each by a search of its own.
#![tactic(auto)]

ghost use Rattle.std.specs.Prelude.{◌≤◌, ◌<◌, ◌≡◌, [], ◌∷◌, length, Ok};
ghost use Rattle.lists.specs.Reply.{answered};
ghost use Rattle.masks.specs.MaskOf.{mask_of};
ghost use Rattle.table.specs.Events.{capacity};
ghost use Rattle.placing.specs.GoodTable.{GoodTable};
ghost use Rattle.fact_rows.specs.FactRows.{Facts};
ghost use Rattle.search.specs.Replies.{max_allowance};
ghost use Rattle.advice.specs.Sets.{of_size, by_size};
ghost use Rattle.advice.specs.Advice.{most_fences, clear_fences, turned, with_fences, search_with, first_unfound};
ghost use Rattle.advising.specs.Chosen.{events_in, chosen};
ghost use Rattle.advising.specs.Replies.{table_advice, advice_of, decides};

use fact_rows::ROWS;
use masks::{has, lowest_set, mask_if, one, one_if};
use refusals::Refusal;
use search::ALLOWANCE;
use table::{CAPACITY, Event, Kind, Table};
use witness_walk::Ending;

// The answer; a set of fences is the mask of their numbers.
#[derive(Clone, Copy)]
pub enum Advice {
    Advised(u32),
    Undecided(u32),
    NoHelp,
}

// The most clear fences that a table may hold.
const FENCES: u32 = 8;

// All four bits of a fence.
const ALL_BITS: u8 = 15;

// The set of the ordinary fences with all bits clear.
fn clear_fences(t: Table) -> u32
    requires { t.count ≤ capacity }
    ensures { result ≡ mask_of (clear_fences t) }
{
    let mut mask: u32 = 0;
    for e in 0..t.count {
        let x = t.events[e as usize];
        mask |= one_if((x.kind == Kind::FENCE) & (x.flags == 0), e);
    }
    mask
}

// Of a set of fences those that m chooses: the first by the highest bit, the last by bit 0.
fn chosen(fences: u32, m: u32) -> u32
    ensures { events_in result ≡ chosen (events_in fences) m }
{
    let mut left = fences;
    let mut set: u32 = 0;
    while left != 0 {
        let e = lowest_set(left);
        let bit = one(e);
        left ^= bit;
        set |= mask_if(has(m, u32::count_ones(left)), bit);
    }
    set
}

// The event, with all four bits of a fence if it turns.
fn turned(turns: bool, e: Event) -> Event
    ensures { result ≡ turned turns e }
{
    if turns {
        Event {
            flags: ALL_BITS,
            ..e
        }
    } else {
        e
    }
}

// The table with a set of fences turned to all four bits.
fn with_fences(t: Table, set: u32) -> Table
    ensures { result ≡ with_fences t (events_in set) }
{
    let mut events = t.events;
    for k in 0..CAPACITY {
        events[k] = turned(has(set, k as u32), t.events[k]);
    }
    Table { events, ..t }
}

// What the search with a set says, by the facts of the table without it; a set with which a witness is found doesn't help.
fn try_set(
    t: Table,
    facts: &[[u32; CAPACITY]; ROWS],
    set: u32,
    allowance: u64,
) -> Result<Advice, Refusal>
    requires { Facts t facts.now × (allowance ≤ max_allowance) }
    ensures { advice_of result ≡ answered (first_unfound (search_with t allowance) (events_in set ∷ [])) }
{
    let u = with_fences(t, set);
    let sets = event_sets::of_table(u);
    let words = [0u32; 0];
    let start = [0u8; 0];
    let mut order = [0u8; CAPACITY];
    let ending = search::search_by(u, sets, facts, &words, 0, &start, &mut order, allowance)?;
    match ending {
        Ending::Found { .. } => Ok(Advice::NoHelp),
        Ending::NoneLeft { .. } => Ok(Advice::Advised(set)),
        Ending::Spent { .. } => Ok(Advice::Undecided(set)),
    }
}

// Whether nothing further is tried.
fn decides(said: Advice) -> bool
    ensures { result ≡ decides (advice_of (Ok said)) }
{
    !matches!(said, Advice::NoHelp)
}

// Tries the sets of one size: from the greatest mask down, and so in the order of their lists.
fn try_size(
    t: Table,
    facts: &[[u32; CAPACITY]; ROWS],
    fences: u32,
    size: u32,
    allowance: u64,
) -> Result<Advice, Refusal>
    requires { Facts t facts.now × (length (events_in fences) ≤ most_fences) × (allowance ≤ max_allowance) }
    ensures { advice_of result ≡ answered (first_unfound (search_with t allowance) (of_size (events_in fences) size)) }
{
    for m in (0..one(u32::count_ones(fences))).rev() {
        if u32::count_ones(m) == size {
            let said = try_set(t, facts, chosen(fences, m), allowance)?;
            if decides(said) {
                return Ok(said);
            }
        }
    }
    Ok(Advice::NoHelp)
}

// Tries all sets, by size.
fn try_all(
    t: Table,
    facts: &[[u32; CAPACITY]; ROWS],
    fences: u32,
    allowance: u64,
) -> Result<Advice, Refusal>
    requires { Facts t facts.now × (length (events_in fences) ≤ most_fences) × (allowance ≤ max_allowance) }
    ensures { advice_of result ≡ answered (first_unfound (search_with t allowance) (by_size (events_in fences))) }
{
    let most = u32::count_ones(fences);
    for size in 0..=most {
        let said = try_size(t, facts, fences, size, allowance)?;
        if decides(said) {
            return Ok(said);
        }
    }
    Ok(Advice::NoHelp)
}

// The advice for a table: refusals 22 and 17, or what the first set says with which no witness is found.
pub fn advise(t: Table, allowance: u64) -> Result<Advice, Refusal>
    requires { GoodTable t }
    ensures { advice_of result ≡ table_advice t allowance }
{
    let fences = clear_fences(t);
    if FENCES < u32::count_ones(fences) {
        return Err(Refusal::Line(22));
    }
    if ALLOWANCE < allowance {
        return Err(Refusal::Line(17));
    }
    let facts = facts::of_table(t, event_sets::of_table(t));
    try_all(t, &facts, fences, allowance)
}
