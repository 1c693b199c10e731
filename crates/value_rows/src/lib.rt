// The rows of a table's facts that the values of a text are told by, each made as a whole.
#![tactic(auto)]

ghost use Rattle.std.specs.Prelude.{◌+◌, ◌*◌, ◌^◌, ◌<◌, ◌≡◌, not, ◌&&◌, eqb, length, set};
ghost use Rattle.lists.specs.Filled.{padded};
ghost use Rattle.operation.specs.Operation.{no_operation};
ghost use Rattle.table.specs.Events.{capacity, event, location, writes};
ghost use Rattle.table.specs.Counts.{Small};
ghost use Rattle.model.specs.Returns.{initial_value};
ghost use Rattle.placing.specs.GoodTable.{GoodTable};
ghost use Rattle.order_facts.specs.Facts.{mask_by};
ghost use Rattle.fact_rows.specs.FactRows.{Facts};
ghost use Rattle.fact_rows.specs.ValueRows.{Values, row_count, operated_word};
ghost use Rattle.event_sets.specs.Sets.{sets_of};
ghost use Rattle.value_rows.specs.Narrow.{NarrowWritten, NarrowActions, NarrowInitial};

use event_sets::Sets;
use fact_rows::{ACTIONS, INITIAL, OPERAND, OPERATED, PLACES, ROWS, SETS, WRITERS, WRITTEN};
use masks::one_if;
use operation::Operation;
use table::{CAPACITY, Event, Table};

// The location of each event.
fn places(t: Table) -> [u32; CAPACITY]
    requires { Small t }
    ensures { result ≡ padded capacity t.count (location t) }
{
    let mut row = [0u32; CAPACITY];
    for e in 0..t.count {
        row[e as usize] = t.events[e as usize].location.0 as u32;
    }
    row
}

// A value as a word.
fn value(v: u16) -> u32
    ensures { (result ≡ v) × (v < 2 ^ 16) }
{
    u32::from(v)
}

// The value that each event states to write.
fn written(t: Table) -> [u32; CAPACITY]
    requires { Small t }
    ensures value { result ≡ padded capacity t.count (λ e. (event t e).written) }
    ensures narrow_written { NarrowWritten t }
{
    let mut row = [0u32; CAPACITY];
    for e in 0..t.count {
        row[e as usize] = value(t.events[e as usize].written);
    }
    row
}

// The operation and the operand of an event as a word.
fn action(operation: u8, operand: u8) -> u32
    ensures { (result ≡ operation + 256 * operand) × (operation < 2 ^ 8) × (operand < 2 ^ 8) }
{
    u32::from(operation) + OPERAND * u32::from(operand)
}

// Those of each event.
fn actions(t: Table) -> [u32; CAPACITY]
    requires { Small t }
    ensures value { result ≡ padded capacity t.count (λ e. (event t e).operation + 256 * (event t e).operand) }
    ensures narrow_actions { NarrowActions t }
{
    let mut row = [0u32; CAPACITY];
    for e in 0..t.count {
        let x = t.events[e as usize];
        row[e as usize] = action(x.operation, x.operand);
    }
    row
}

// The writers to each location.
fn writers(t: Table, s: Sets) -> [u32; CAPACITY]
    requires { Small t × (s ≡ sets_of t) }
    ensures { result ≡ padded capacity t.locations (λ x. mask_by t (λ w. writes t w && eqb (location t w) x)) }
{
    let mut row = [0u32; CAPACITY];
    for x in 0..t.locations {
        row[x as usize] = s.writers & s.locations[x as usize];
    }
    row
}

// The initial value of each location.
fn initial(t: Table) -> [u32; CAPACITY]
    requires { Small t }
    ensures value { result ≡ padded capacity t.locations (initial_value t) }
    ensures narrow_initial { NarrowInitial t }
{
    let mut row = [0u32; CAPACITY];
    for x in 0..t.locations {
        row[x as usize] = value(t.initial[x as usize]);
    }
    row
}

// The mask of the events with an operation.
fn operated(t: Table) -> u32
    requires { Small t }
    ensures { result ≡ mask_by t (λ e. not (eqb (event t e).operation no_operation)) }
{
    let mut mask: u32 = 0;
    for e in 0..t.count {
        mask |= one_if(t.events[e as usize].operation != Operation::NONE, e);
    }
    mask
}

// The row of words, with that mask.
fn words(t: Table, row: [u32; CAPACITY]) -> [u32; CAPACITY]
    requires { Small t }
    ensures value { result ≡ set row operated_word (mask_by t (λ e. not (eqb (event t e).operation no_operation))) }
    ensures row_len { length row ≡ capacity }
{
    let mut r = row;
    r[OPERATED] = operated(t);
    r
}

// How many rows there are: what the type says.
fn row_count(facts: &[[u32; CAPACITY]; ROWS]) -> usize
    ensures { length facts.now ≡ row_count }
{
    let rows: &[[u32; CAPACITY]] = facts;
    rows.len()
}

// Fills these rows of a table's facts.
pub fn add_values(t: Table, s: Sets, facts: &mut [[u32; CAPACITY]; ROWS])
    requires { GoodTable t × (s ≡ sets_of t) × Facts t facts.old }
    ensures { Facts t facts.new × Values t facts.new }
{
    row_count(&*facts);
    facts[PLACES] = places(t);
    facts[WRITTEN] = written(t);
    facts[ACTIONS] = actions(t);
    facts[WRITERS] = writers(t, s);
    facts[INITIAL] = initial(t);
    facts[SETS] = words(t, facts[SETS]);
}
