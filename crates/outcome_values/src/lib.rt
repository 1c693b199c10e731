// What a clean order gives: the value that each reader returns, in event order, then the final value of each location. They are
// told in one pass along the order, by the facts of a table, which are lent as one array.
#![tactic(auto)]

ghost use Rattle.std.specs.Prelude.{◌+◌, ◌%◌, ◌≤◌, ◌<◌, cond, ◌++◌, map, ◌≡◌, length, get_or, take, set};
ghost use Rattle.edition.specs.Limits.{max_locations};
ghost use Rattle.lists.specs.Below.{below};
ghost use Rattle.masks.specs.Bit.{bit};
ghost use Rattle.masks.proofs.ListedLaws.{bits};
ghost use Rattle.table.specs.Events.{capacity};
ghost use Rattle.fact_rows.specs.FactRows.{row, mask};
ghost use Rattle.fact_rows.specs.ValueRows.{writer_row, initial_row};
ghost use Rattle.order_test.specs.Testing.{Fitting};
ghost use Rattle.outcome_values.specs.Giving.{row_length, value_in, NowBy, ReturnsIn, EndsIn, GivesBy, Gives};

use fact_rows::{INITIAL, OPERATED, OWN, PLACES, ROWS, SETS, WRITERS, WRITTEN};
use masks::{Ones, has, highest_set, less, one};
use order_values::{left_values, place};
use table::CAPACITY;

// Room for the values of any order: one for each event, and one for each location.
pub const ROW: usize = 40;

// How many values there are.
const VALUES: u32 = 65_536;

// A value in its own width: what follows from an order has room there.
fn narrow(value: u32) -> u16
    ensures { result ≡ value % 65536 }
{
    (value % VALUES) as u16
}

// The value that `e` returns behind those placed: what the latest of its own writers leaves that isn't placed, or what is at its
// location `x`.
fn value_now(
    facts: &[[u32; CAPACITY]; ROWS],
    left: &[u32; CAPACITY],
    at: &[u32; CAPACITY],
    placed: u32,
    e: u8,
    x: usize,
) -> u32
    requires { (e < capacity) × (x < capacity) }
    ensures { NowBy facts.now left.now placed e (get_or at.now x 0) result }
{
    let missing = less(facts[OWN][e as usize], placed);
    if missing == 0 {
        return at[x];
    }
    left[highest_set(missing) as usize]
}

// What `e` leaves is at its location `x` then, if it writes.
fn note_write(
    facts: &[[u32; CAPACITY]; ROWS],
    left: &[u32; CAPACITY],
    at: &mut [u32; CAPACITY],
    e: u8,
    x: usize,
)
    requires { (e < capacity) × (x < capacity) }
    ensures { at.new ≡ cond (bit (mask facts.now writer_row x) e)
        (set at.old x (get_or left.now e 0)) at.old }
{
    if has(facts[WRITERS][x], u32::from(e)) {
        at[x] = left[e as usize];
    }
}

// Goes along the order, where `left` has what each write leaves: what each reader returns, and what is at each location at the
// end. At first the initial values are there.
fn go_along(
    facts: &[[u32; CAPACITY]; ROWS],
    left: &[u32; CAPACITY],
    order: &[u8; CAPACITY],
    len: usize,
    returned: &mut [u32; CAPACITY],
    at: &mut [u32; CAPACITY],
)
    requires { Fitting order.now len × (length returned.old ≡ capacity) × (at.old ≡ row facts.now initial_row) }
    ensures returns_in { ReturnsIn facts.now left.now (take len order.now) returned.new }
    ensures ends_in { EndsIn facts.now left.now (take len order.now) at.new }
{
    let mut placed: u32 = 0;
    for &e in &order[..len] {
        let x = place(facts[PLACES][e as usize]);
        returned[e as usize] = value_now(facts, left, &*at, placed, e, x);
        note_write(facts, left, at, e, x);
        placed |= one(u32::from(e));
    }
}

// Writes what each reader returns, the lowest first: how many these are.
fn returned_values(returned: &[u32; CAPACITY], readers: u32, values: &mut [u16; ROW]) -> usize
    requires { length values.old ≡ row_length }
    ensures values_after { take result values.new ≡ map (value_in returned.now) (bits capacity readers) }
    ensures upper_bound { (result ≤ capacity) × (length values.new ≡ row_length) }
{
    let mut n: usize = 0;
    for e in Ones(readers) {
        values[n] = narrow(returned[e as usize]);
        n += 1;
    }
    n
}

// Writes what is at each location, behind the first `n` values.
fn final_values(at: &[u32; CAPACITY], locations: u8, n: usize, values: &mut [u16; ROW])
    requires { (locations ≤ max_locations) × (n ≤ capacity) × (length values.old ≡ row_length) }
    ensures values_after { take (n + locations) values.new ≡
        take n values.old ++ map (value_in at.now) (below locations) }
    ensures values_len { length values.new ≡ row_length }
{
    for x in 0..usize::from(locations) {
        values[n + x] = narrow(at[x]);
    }
}

// Writes what the clean order gives, where `left` has what each write leaves: how many values that are.
fn outcome_by(
    facts: &[[u32; CAPACITY]; ROWS],
    left: &[u32; CAPACITY],
    order: &[u8; CAPACITY],
    len: usize,
    readers: u32,
    locations: u8,
    values: &mut [u16; ROW],
) -> usize
    requires { Fitting order.now len × (locations ≤ max_locations) × (length values.old ≡ row_length) }
    ensures gives_by { GivesBy facts.now left.now (take len order.now)
        readers locations result values.new }
    ensures upper_bound { (result ≤ row_length) × (length values.new ≡ row_length) }
{
    let mut returned = [0u32; CAPACITY];
    let mut at = facts[INITIAL];
    go_along(facts, left, order, len, &mut returned, &mut at);
    let n = returned_values(&returned, readers, values);
    final_values(&at, locations, n, values);
    n + usize::from(locations)
}

// Writes what the clean order at the front of the array gives: how many values that are. `readers` is the mask of the test's
// readers.
pub fn outcome(
    facts: &[[u32; CAPACITY]; ROWS],
    order: &[u8; CAPACITY],
    len: usize,
    readers: u32,
    locations: u8,
    values: &mut [u16; ROW],
) -> usize
    requires { Fitting order.now len × (locations ≤ max_locations) × (length values.old ≡ row_length) }
    ensures gives { Gives facts.now (take len order.now) readers locations result values.new }
    ensures upper_bound { (result ≤ row_length) × (length values.new ≡ row_length) }
{
    if facts[SETS][OPERATED] == 0 {
        return outcome_by(
            facts,
            &facts[WRITTEN],
            order,
            len,
            readers,
            locations,
            values,
        );
    }
    let left = left_values(facts, order, len);
    outcome_by(facts, &left, order, len, readers, locations, values)
}
