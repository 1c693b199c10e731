// The values that follow from a clean order: what each write leaves, what each reader returns, and the value of each location at
// the end. They are told by the facts of a table, which are lent as one array.
#![tactic(auto)]

ghost use Rattle.std.specs.Prelude.{◌%◌, ◌≤◌, ◌<◌, ◌≡◌, take};
ghost use Rattle.lists.proofs.LastLaws.{Behind};
ghost use Rattle.masks.specs.Bit.{bit};
ghost use Rattle.table.specs.Events.{capacity};
ghost use Rattle.model.specs.Rules.{initially};
ghost use Rattle.fact_rows.specs.FactRows.{mask};
ghost use Rattle.fact_rows.specs.ValueRows.{writer_row};
ghost use Rattle.order_test.specs.Testing.{Fitting};
ghost use Rattle.order_values.specs.Following.{Leaves, ReadsBy, EndsBy};
ghost use Rattle.order_values.specs.ByFacts.{last_left, written_by, left_by};

use fact_rows::{ACTIONS, INITIAL, OPERAND, OPERATED, OWN, PLACES, ROWS, SETS, WRITERS, WRITTEN};
use masks::has;
use operation::{Operation, apply};
use table::CAPACITY;

// How many values there are.
const VALUES: u32 = 65_536;

// What an AMO with this operation and operand writes of the value that it returns.
fn written(action: u32, value: u32) -> u32
    ensures { result ≡ written_by action value }
{
    let operation = (action % OPERAND) as u8;
    let operand = (action / OPERAND % OPERAND) as u8;
    u32::from(apply(operation, (value % VALUES) as u16, operand))
}

// A word of the row `PLACES` as a number with room in a row.
pub fn place(word: u32) -> usize
    ensures { (result ≡ word % capacity) × (result < capacity) }
{
    word as usize % CAPACITY
}

// A value, and the number of first entries that decide it: it is the same in each clean order that begins with these.
#[derive(Clone, Copy)]
pub struct Told {
    pub value: u32,
    pub depth: usize,
}

// What the last writer to location `x` among the first `len` entries leaves, or the initial write if there is none. The entries
// up to it decide that.
fn last_left(
    facts: &[[u32; CAPACITY]; ROWS],
    left: &[u32; CAPACITY],
    order: &[u8; CAPACITY],
    len: usize,
    x: usize,
) -> Told
    requires { Fitting order.now len × (x < capacity) }
    ensures value_value { result.value ≡ last_left facts.now left.now (take len order.now) x }
    ensures behind { Behind (bit (mask facts.now writer_row x)) initially order.now len result.depth }
{
    let writers = facts[WRITERS][x];
    for i in (0..len).rev() {
        let w = order[i];
        if has(writers, u32::from(w)) {
            return Told {
                value: left[w as usize],
                depth: i + 1,
            };
        }
    }
    Told {
        value: facts[INITIAL][x],
        depth: 0,
    }
}

// What event `e` leaves, where the first `len` entries stand before it and `left` has what they leave.
fn left_by(
    facts: &[[u32; CAPACITY]; ROWS],
    left: &[u32; CAPACITY],
    order: &[u8; CAPACITY],
    len: usize,
    e: u8,
) -> u32
    requires { Fitting order.now len × (e < capacity) }
    ensures { result ≡ left_by facts.now left.now (take len order.now) e }
{
    let action = facts[ACTIONS][e as usize];
    if action % OPERAND == u32::from(Operation::NONE) {
        return facts[WRITTEN][e as usize];
    }
    let x = place(facts[PLACES][e as usize]);
    let told = last_left(facts, left, order, len, x);
    written(action, told.value)
}

// What each write leaves, by the clean order at the front of the array. Where no event has an operation, that is what the lines
// state; else it is told along the order.
pub fn left_values(
    facts: &[[u32; CAPACITY]; ROWS],
    order: &[u8; CAPACITY],
    len: usize,
) -> [u32; CAPACITY]
    requires { Fitting order.now len }
    ensures { Leaves facts.now (take len order.now) result }
{
    let mut left = facts[WRITTEN];
    if facts[SETS][OPERATED] == 0 {
        return left;
    }
    for (i, &e) in order[..len].iter().enumerate() {
        left[e as usize] = left_by(facts, &left, order, i, e);
    }
    left
}

// The value that reader `e` returns. Of the entries behind it only its own writers count; without such the entries up to it decide
// the value, and where nothing writes its location none is asked.
pub fn value_read(
    facts: &[[u32; CAPACITY]; ROWS],
    left: &[u32; CAPACITY],
    order: &[u8; CAPACITY],
    len: usize,
    e: u8,
) -> Told
    requires { Fitting order.now len × (e < capacity) }
    ensures reads_by { ReadsBy facts.now left.now (take len order.now) e result.depth result.value }
    ensures depth_le_capacity { result.depth ≤ capacity }
{
    let x = place(facts[PLACES][e as usize]);
    if facts[WRITERS][x] == 0 {
        return Told {
            value: facts[INITIAL][x],
            depth: 0,
        };
    }
    let own = facts[OWN][e as usize];
    for i in (0..len).rev() {
        let w = order[i];
        if w == e {
            let told = last_left(facts, left, order, i, x);
            return Told {
                value: told.value,
                depth: i + 1,
            };
        }
        if has(own, u32::from(w)) {
            return Told {
                value: left[w as usize],
                depth: len,
            };
        }
    }
    Told {
        value: facts[INITIAL][x],
        depth: len,
    }
}

// The value of location `x` at the end.
pub fn value_at_end(
    facts: &[[u32; CAPACITY]; ROWS],
    left: &[u32; CAPACITY],
    order: &[u8; CAPACITY],
    len: usize,
    x: u8,
) -> Told
    requires { Fitting order.now len × (x < capacity) }
    ensures ends_by { EndsBy facts.now left.now (take len order.now) x result.depth result.value }
    ensures depth_le_capacity { result.depth ≤ capacity }
{
    last_left(facts, left, order, len, usize::from(x))
}
