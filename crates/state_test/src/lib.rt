// The states of the decision by masks: the first state and the next one, what may be placed, whether a stated value is lost, and
// which events need be tried.
#![tactic(auto)]

ghost use Rattle.std.specs.Prelude.{◌<◌, ◌≡◌, ◌&&◌, ◌||◌, get_or};
ghost use Rattle.std.specs.Int.Bits.{bit_and};
ghost use Rattle.lists.specs.Below.{some};
ghost use Rattle.masks.specs.Bit.{bit};
ghost use Rattle.table.specs.Events.{capacity};
ghost use Rattle.placing.specs.Guards.{ready, may_place};
ghost use Rattle.placing.specs.GoodTable.{GoodTable};
ghost use Rattle.event_sets.specs.Sets.{sets_of};
ghost use Rattle.order_facts.specs.Facts.{mask_by, opens, reads_good};
ghost use Rattle.fact_rows.specs.FactRows.{mask};
ghost use Rattle.fact_rows.specs.ValueRows.{row_count};
ghost use Rattle.order_test.specs.Testing.{Tells};
ghost use Rattle.states.specs.States.{ends_well};
ghost use Rattle.states.specs.Choices.{watched, beside, lacks, waits_inside, closed_at, persists, lost_read, lost_final, lost};
ghost use Rattle.state_test.specs.Board.{Says, FactsSay, SaysOf, Accepted, Lacking, Chooses, TiesOf, Starts, Steps, Union};
ghost use Rattle.state_test.specs.Board.{kind_row, memory_word, writers_word, readers_word};

use event_sets::Sets;
use fact_rows::{GOOD, GUARDS, NEEDS, OWN, PEERS, RIGHT, ROWS, SETS, WINDOW, WRONG};
use masks::{Ones, has, highest_set, less, lowest_set, mask_if, one, within};
use states::State;
use successors::SLOTS;
use table::{CAPACITY, Table};

// What else is read of a table: for each event its steady predecessors, and the memory events at its location.
pub const BEFORE: usize = 0;

pub const PLACE: usize = 1;

// A row of words: the masks of the memory events, of the writers, and of the readers.
pub const KINDS: usize = 2;

pub const TIES: usize = 3;

pub const MEMORY: usize = 0;

pub const WRITERS: usize = 1;

pub const READERS: usize = 2;

// The union of the masks that row `k` has for the events of `of`.
fn union(facts: &[[u32; CAPACITY]; ROWS], k: usize, of: u32) -> u32
    requires { k < row_count }
    ensures { Union (mask facts.now k) of result }
{
    let mut all: u32 = 0;
    for e in Ones(of) {
        all |= facts[k][e as usize];
    }
    all
}

// The first state: nothing is placed.
pub fn first(facts: &[[u32; CAPACITY]; ROWS]) -> State
    ensures { Starts facts.now result }
{
    State {
        placed: 0,
        good: facts[SETS][GOOD],
    }
}

// The state once `e` is placed. What is placed reads no more: its bit of the good is taken away, so that states which differ there
// alone are one.
pub fn step(facts: &[[u32; CAPACITY]; ROWS], s: State, e: u8) -> State
    requires { e < capacity }
    ensures { Steps facts.now s e result }
{
    let placed = s.placed | one(u32::from(e));
    let good = order_test::good_after(facts, s.good, e);
    State {
        placed,
        good: less(good, placed),
    }
}

// If `e` writes a wrong final value, another writer to its location is still to come.
fn ends_well(facts: &[[u32; CAPACITY]; ROWS], placed: u32, e: u8) -> bool
    requires { e < capacity }
    ensures { Tells facts.now e (λ t. ends_well t (bit placed) e) result }
{
    let peers = less(facts[PEERS][e as usize], placed);
    !has(facts[SETS][WRONG], u32::from(e)) | (peers != 0)
}

// If `e` reads, it would return its stated value now.
fn reads_well(facts: &[[u32; CAPACITY]; ROWS], ties: &[[u32; SLOTS]; TIES], s: State, e: u8) -> bool
    requires { e < capacity }
    ensures { SaysOf facts.now ties.now e
        (λ t. reads_good t (bit s.placed) (bit s.good) e) result }
{
    !has(ties[KINDS][READERS], u32::from(e)) || order_test::reads_stated(facts, s.placed, s.good, e)
}

// `e`, a memory event that isn't placed, may be placed next. What is cheap and often fails is tested first.
fn may_follow(facts: &[[u32; CAPACITY]; ROWS], ties: &[[u32; SLOTS]; TIES], s: State, e: u8) -> bool
    requires { e < capacity }
    ensures { SaysOf facts.now ties.now e
        (λ t. ready t (bit s.placed) e && may_place t (bit s.placed) e
        && reads_good t (bit s.placed) (bit s.good) e && ends_well t (bit s.placed) e) result }
{
    if !within(ties[BEFORE][e as usize], s.placed) {
        return false;
    }
    if !reads_well(facts, ties, s, e) {
        return false;
    }
    if !ends_well(facts, s.placed, e) {
        return false;
    }
    order_test::may_place(facts, s.placed, e)
}

// The mask of the events that may be placed next.
pub fn accepted(facts: &[[u32; CAPACITY]; ROWS], ties: &[[u32; SLOTS]; TIES], s: State) -> u32
    ensures { Accepted facts.now ties.now s result }
{
    let mut can: u32 = 0;
    let left = less(ties[KINDS][MEMORY], s.placed);
    for e in Ones(left) {
        can |= mask_if(may_follow(facts, ties, s, e as u8), one(e));
    }
    can
}

// Some reader's stated value is lost: the reader isn't placed, it would return another value now, and no writer that is still to
// come has it.
fn lost_read(facts: &[[u32; CAPACITY]; ROWS], ties: &[[u32; SLOTS]; TIES], s: State) -> bool
    ensures { Says facts.now ties.now
        (λ t. some t.count (lost_read t (bit s.placed) (bit s.good))) result }
{
    let answered = union(facts, RIGHT, less(ties[KINDS][WRITERS], s.placed));
    let left = less(less(ties[KINDS][READERS], s.placed), answered);
    for r in Ones(left) {
        if !order_test::reads_stated(facts, s.placed, s.good, r as u8) {
            return true;
        }
    }
    false
}

// Some location's final value is lost: writers to it are still to come, and each writes a wrong one.
fn lost_final(facts: &[[u32; CAPACITY]; ROWS], placed: u32) -> bool
    ensures { FactsSay facts.now (λ t. some t.count (lost_final t (bit placed))) result }
{
    let wrong = facts[SETS][WRONG];
    let left = less(wrong, placed);
    for w in Ones(left) {
        if within(less(facts[PEERS][w as usize], placed), wrong) {
            return true;
        }
    }
    false
}

// Some stated value can't come about any more.
pub fn is_lost(facts: &[[u32; CAPACITY]; ROWS], ties: &[[u32; SLOTS]; TIES], s: State) -> bool
    ensures { Says facts.now ties.now (λ t. lost t s) result }
{
    lost_final(facts, s.placed) || lost_read(facts, ties, s)
}

// The events that, placed now, would open a window that a writer still to come may meet.
fn opening(facts: &[[u32; CAPACITY]; ROWS], ties: &[[u32; SLOTS]; TIES], placed: u32) -> u32
    ensures { Says facts.now ties.now
        (λ t. mask_by t (λ e. some t.count (λ v. watched t (bit placed) v && opens t v e))) result }
{
    let guards = union(facts, GUARDS, less(ties[KINDS][MEMORY], placed));
    union(facts, WINDOW, less(guards, placed))
}

// What the forwarder of `e`, if it has one, needs before it is returned from, and isn't placed.
fn lacking(facts: &[[u32; CAPACITY]; ROWS], placed: u32, e: u8) -> u32
    requires { e < capacity }
    ensures { Lacking facts.now placed e result }
{
    let missing = less(facts[OWN][e as usize], placed);
    if missing == 0 {
        return 0;
    }
    less(facts[NEEDS][highest_set(missing) as usize], placed)
}

// The events that could disturb `e`, which is ready: those at its location, and those that its forwarder lacks.
fn disturbers(
    facts: &[[u32; CAPACITY]; ROWS],
    ties: &[[u32; SLOTS]; TIES],
    placed: u32,
    e: u8,
) -> u32
    requires { e < capacity }
    ensures { SaysOf facts.now ties.now e
        (λ t. mask_by t (λ a. beside t (bit placed) e a || lacks t (bit placed) e a)) result }
{
    less(ties[PLACE][e as usize], placed) | lacking(facts, placed, e)
}

// Event `e` of the set waits for another of it, or is ready and all that could disturb it is in the set.
fn is_kept(
    facts: &[[u32; CAPACITY]; ROWS],
    ties: &[[u32; SLOTS]; TIES],
    placed: u32,
    set: u32,
    e: u8,
) -> bool
    requires { e < capacity }
    ensures { SaysOf facts.now ties.now e
        (λ t. waits_inside t (bit placed) (bit set) e || ready t (bit placed) e && closed_at t (bit placed) (bit set) e) result }
{
    let awaited = less(ties[BEFORE][e as usize], placed);
    if awaited != 0 {
        return awaited & set != 0;
    }
    within(disturbers(facts, ties, placed, e), set)
}

// The set of memory events is persisting.
fn persists(
    facts: &[[u32; CAPACITY]; ROWS],
    ties: &[[u32; SLOTS]; TIES],
    placed: u32,
    set: u32,
) -> bool
    requires { bit_and set (mask ties.now kind_row memory_word) ≡ set }
    ensures { Says facts.now ties.now (λ t. persists t (bit placed) (bit set)) result }
{
    if (set == 0) | (set & placed != 0) {
        return false;
    }
    for e in Ones(set) {
        if !is_kept(facts, ties, placed, set, e as u8) {
            return false;
        }
    }
    true
}

// The events that a persisting set with `e` in it wants too: a steady predecessor that `e` waits for, unless one is in the set; if
// it is ready, all that could disturb it.
fn wanted(
    facts: &[[u32; CAPACITY]; ROWS],
    ties: &[[u32; SLOTS]; TIES],
    placed: u32,
    set: u32,
    e: u8,
) -> u32
    requires { e < capacity }
{
    let awaited = less(ties[BEFORE][e as usize], placed);
    if awaited == 0 {
        return disturbers(facts, ties, placed, e);
    }
    mask_if(awaited & set == 0, one(highest_set(awaited)))
}

// A set that is grown from one event until it wants no more, to be tested. An event joins it once, and is then asked what it wants
// once, so that there are rounds enough.
fn grow(facts: &[[u32; CAPACITY]; ROWS], ties: &[[u32; SLOTS]; TIES], placed: u32, seed: u32) -> u32
    requires { seed < capacity }
{
    let mut set = one(seed);
    let mut new = set;
    for _ in 0..CAPACITY {
        if new == 0 {
            break;
        }
        let e = lowest_set(new);
        let more = less(wanted(facts, ties, placed, set, e as u8), set);
        set |= more;
        new = (new ^ one(e)) | more;
    }
    set
}

// Of the sets that are grown from an event that may be placed, one with the fewest of these events. That is no promise: whatever
// set is found is tested.
fn smallest(
    facts: &[[u32; CAPACITY]; ROWS],
    ties: &[[u32; SLOTS]; TIES],
    placed: u32,
    can: u32,
) -> u32 {
    let mut best = can;
    let mut fewest = u32::count_ones(can);
    for e in Ones(can) {
        if fewest <= 1 {
            break;
        }
        let set = grow(facts, ties, placed, e);
        let tried = u32::count_ones(set & can);
        if tried < fewest {
            best = set;
            fewest = tried;
        }
    }
    best
}

// Of the events that may be placed next, enough to try: a reader that opens no window that is met later; else those of a persisting
// set, if one is found.
pub fn choice(
    facts: &[[u32; CAPACITY]; ROWS],
    ties: &[[u32; SLOTS]; TIES],
    s: State,
    can: u32,
) -> u32
    ensures { Chooses facts.now ties.now s can result }
{
    let readers = less(can, ties[KINDS][WRITERS]);
    let quiet = less(readers, opening(facts, ties, s.placed));
    if quiet != 0 {
        return one(lowest_set(quiet));
    }
    let set = smallest(facts, ties, s.placed, can) & ties[KINDS][MEMORY];
    if persists(facts, ties, s.placed, set) {
        can & set
    } else {
        can
    }
}

// The words of the last row.
fn words(memory: u32, writers: u32, readers: u32) -> [u32; SLOTS]
    ensures { (get_or result memory_word 0 ≡ memory) × (get_or result writers_word 0 ≡ writers)
        × (get_or result readers_word 0 ≡ readers) }
{
    let mut row = [0u32; SLOTS];
    row[MEMORY] = memory;
    row[WRITERS] = writers;
    row[READERS] = readers;
    row
}

// The rows of a table, made once a call.
pub fn ties_of(t: Table, s: Sets) -> [[u32; SLOTS]; TIES]
    requires { GoodTable t × (s ≡ sets_of t) }
    ensures { TiesOf t result }
{
    let memory = table::memory_mask(t);
    let mut place = [0u32; SLOTS];
    for e in 0..t.count {
        let x = t.events[e as usize].location.0;
        place[e as usize] = memory & s.locations[x as usize];
    }
    let before = precedence::predecessors(t, s);
    let kinds = words(memory, s.writers, s.readers);
    [before, place, kinds]
}
