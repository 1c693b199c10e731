// Deciding a table by its states: whether a state completes, the least run from a state, and the next one after a list.
#![tactic(auto)]

ghost use Rattle.std.specs.Prelude.{◌+◌, ◌≤◌, ◌<◌, ◌≡◌, ◌&&◌, length, ltb, Ok};
ghost use Rattle.state_test.specs.Board.{Boarded};
ghost use Rattle.masks.specs.Bit.{bit};
ghost use Rattle.lists.specs.Reply.{answered};
ghost use Rattle.table.specs.Events.{memory_count};
ghost use Rattle.placing.specs.GoodTable.{GoodTable};
ghost use Rattle.candidate.specs.CandidateLines.{order_too_short};
ghost use Rattle.states.specs.Decisions.{next_witness};
ghost use Rattle.deciding.specs.Memo.{word_of, Knows, Stored, Blank};
ghost use Rattle.deciding.specs.Replies.{table_decision, MemoAfter, Decides};
ghost use Rattle.deciding.specs.Deciding.{Completes, May, Leads, LeadsLeast, Above, GoesOn};

use fact_rows::{ROWS, SETS, UNMET};
use masks::{Ones, from, has};
use refusals::Refusal;
use state_test::{KINDS, MEMORY, TIES};
use states::State;
use successors::SLOTS;
use table::{CAPACITY, Table};

// The words of a memo of its own.
const WORDS: usize = 4096;

// The highest bit of a mask.
const TOP_BIT: u8 = 31;

// What a good reader counts for in the word of a state.
const GOOD: u64 = 4_294_967_296;

// A state as one word.
fn word_of(s: State) -> u64
    ensures { result ≡ word_of s }
{
    u64::from(s.good) * GOOD + u64::from(s.placed)
}

// Two odd factors that spread the bits of the masks, and the bits of the product that are left out.
const SPREAD_PLACED: u64 = 0x9E37_79B1;

const SPREAD_GOOD: u64 = 0x85EB_CA77;

const LOW_BITS: u64 = 29;

// The slot of a state in a memo of so many words.
fn slot_of(s: State, len: usize) -> usize
    requires { 0 < len }
    ensures { result < len }
{
    let placed = u64::from(s.placed) * SPREAD_PLACED;
    let good = u64::from(s.good) * SPREAD_GOOD;
    (((placed ^ good) >> LOW_BITS) % len as u64) as usize
}

// The memo knows the state.
fn knows(memo: &[u64], s: State) -> bool
    ensures { Knows memo.now s result }
{
    if memo.is_empty() {
        return false;
    }
    let word = word_of(s);
    (word != 0) & (memo[slot_of(s, memo.len())] == word)
}

// The state is stored, and may push another one out.
fn store(memo: &mut [u64], s: State)
    ensures { Stored memo.old s memo.new }
{
    if memo.is_empty() {
        return;
    }
    let slot = slot_of(s, memo.len());
    memo[slot] = word_of(s);
}

// The state, with `left` events to place, completes. The memo knows states that don't.
fn completes(
    facts: &[[u32; CAPACITY]; ROWS],
    ties: &[[u32; SLOTS]; TIES],
    memo: &mut [u64],
    s: State,
    left: u8,
) -> bool
    requires { Boarded facts.now ties.now }
    ensures { Completes facts.now ties.now memo.old memo.new s left result }
{
    if left == 0 {
        return true;
    }
    if knows(&*memo, s) {
        return false;
    }
    if state_test::is_lost(facts, ties, s) {
        return false;
    }
    let can = state_test::accepted(facts, ties, s);
    let tries = state_test::choice(facts, ties, s, can);
    for e in Ones(tries) {
        let next = state_test::step(facts, s, e as u8);
        if completes(facts, ties, memo, next, left - 1) {
            return true;
        }
    }
    store(memo, s);
    false
}

// Of the events, which may be placed, the lowest behind which the state completes.
fn lowest_leading(
    facts: &[[u32; CAPACITY]; ROWS],
    ties: &[[u32; SLOTS]; TIES],
    memo: &mut [u64],
    s: State,
    left: u8,
    events: u32,
) -> Option<u8>
    requires { Boarded facts.now ties.now × May facts.now ties.now s events × (0 < left) }
    ensures { Leads facts.now ties.now memo.old memo.new s left events result }
{
    for e in Ones(events) {
        let next = state_test::step(facts, s, e as u8);
        if completes(facts, ties, memo, next, left - 1) {
            return Some(e as u8);
        }
    }
    None
}

// Writes the least of the runs that begin with one of the events, which may be placed, from `at` on.
fn least_among(
    facts: &[[u32; CAPACITY]; ROWS],
    ties: &[[u32; SLOTS]; TIES],
    memo: &mut [u64],
    s: State,
    left: u8,
    events: u32,
    order: &mut [u8],
    at: usize,
) -> bool
    requires { Boarded facts.now ties.now × May facts.now ties.now s events × (0 < left) × (at + left ≤ length order.old) }
    ensures { LeadsLeast facts.now ties.now memo.old memo.new s left events
        at order.old order.new result }
{
    let Some(e) = lowest_leading(facts, ties, memo, s, left, events) else {
        return false;
    };
    order[at] = e;
    if 1 < left {
        let next = state_test::step(facts, s, e);
        let can = state_test::accepted(facts, ties, next);
        least_among(facts, ties, memo, next, left - 1, can, order, at + 1);
    }
    true
}

// The events of a mask that are greater than `x`.
fn above(m: u32, x: u8) -> u32
    ensures { Above m x result }
{
    if x < TOP_BIT {
        from(m, u32::from(x) + 1)
    } else {
        0
    }
}

// `x` is one of the events.
fn is_event(events: u32, x: u8) -> bool
    ensures { result ≡ (ltb x 32 && bit events x) }
{
    x <= TOP_BIT && has(events, u32::from(x))
}

// Writes the least run that is greater than the rest of the start, from `at` on.
fn next(
    facts: &[[u32; CAPACITY]; ROWS],
    ties: &[[u32; SLOTS]; TIES],
    memo: &mut [u64],
    s: State,
    left: u8,
    start: &[u8],
    order: &mut [u8],
    at: usize,
) -> bool
    requires { Boarded facts.now ties.now × (at + left ≤ length order.old) }
    ensures { GoesOn facts.now ties.now memo.old memo.new s left
        start.now at order.old order.new result }
{
    if left == 0 {
        return false;
    }
    let can = state_test::accepted(facts, ties, s);
    if start.len() <= at {
        return least_among(facts, ties, memo, s, left, can, order, at);
    }
    let x = start[at];
    let greater = above(can, x);
    if !is_event(can, x) {
        return least_among(facts, ties, memo, s, left, greater, order, at);
    }
    order[at] = x;
    let behind = state_test::step(facts, s, x);
    if next(facts, ties, memo, behind, left - 1, start, order, at + 1) {
        return true;
    }
    least_among(facts, ties, memo, s, left, greater, order, at)
}

// Sets every word to 0: the memo says nothing.
fn clear(memo: &mut [u64])
    ensures { Blank memo.new }
{
    memo.fill(0);
}

// A decision on a table, with a memo that says nothing: the length of the witness, if there is one.
fn decide_by(t: Table, start: &[u8], out: &mut [u8], memo: &mut [u64]) -> Option<usize>
    requires { GoodTable t × (memory_count t ≤ length out.old) × Blank memo.old }
    ensures { Decides (answered (next_witness t start.now)) out.old out.new (Ok result) }
{
    let s = event_sets::of_table(t);
    let facts = facts::of_table(t, s);
    if facts[SETS][UNMET] != 0 {
        return None;
    }
    let ties = state_test::ties_of(t, s);
    let first = state_test::first(&facts);
    let count = u32::count_ones(ties[KINDS][MEMORY]);
    let mut order = [0u8; SLOTS];
    if next(
        &facts,
        &ties,
        memo,
        first,
        count as u8,
        start,
        &mut order,
        0,
    ) {
        search::copy(&order, count as usize, out);
        Some(count as usize)
    } else {
        None
    }
}

// The answer buffer is too short for an order.
fn is_short(t: Table, out: &[u8]) -> bool
    requires { GoodTable t }
    ensures { result ≡ order_too_short t out.now }
{
    out.len() < u32::count_ones(table::memory_mask(t)) as usize
}

// A decision on a table, with a lent memo: whatever is in it, and however long it is, the answer is the same.
// The length is that of the witness, which stands at the front of the answer buffer; none is left where there is no length.
pub fn decide_with(
    t: Table,
    start: &[u8],
    out: &mut [u8],
    memo: &mut [u64],
) -> Result<Option<usize>, Refusal>
    requires { GoodTable t }
    ensures decides { Decides (table_decision t start.now out.old) out.old out.new result }
    ensures memo_after { MemoAfter memo.old memo.new result }
{
    if is_short(t, &*out) {
        return Err(Refusal::Line(16));
    }
    clear(memo);
    Ok(decide_by(t, start, out, memo))
}

// A decision on a table, with a memo of its own.
pub fn decide(t: Table, start: &[u8], out: &mut [u8]) -> Result<Option<usize>, Refusal>
    requires { GoodTable t }
    ensures { Decides (table_decision t start.now out.old) out.old out.new result }
{
    if is_short(t, &*out) {
        return Err(Refusal::Line(16));
    }
    let mut memo = [0u64; WORDS];
    Ok(decide_by(t, start, out, &mut memo))
}
