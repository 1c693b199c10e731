// The test of a whole order: the final values are told from its end, and then each entry is asked, by those placed before it,
// whether it may stand there. The facts of the table are lent as one array of masks: a table by value would be copied at each
// call.
#![tactic(auto)]

ghost use Rattle.std.specs.Prelude.{◌<◌, ◌≡◌, not, ◌&&◌, ◌||◌, take};
ghost use Rattle.std.specs.Int.Bits.{bit_and, bit_or, bit_xor};
ghost use Rattle.masks.specs.Bit.{bit};
ghost use Rattle.table.specs.Events.{capacity, reads, writes};
ghost use Rattle.model.specs.Axioms.{final_values};
ghost use Rattle.model.specs.Witness.{lawful, witness};
ghost use Rattle.placing.specs.Guards.{may_read, may_write, may_place, reads_stated};
ghost use Rattle.fact_rows.specs.FactRows.{mask, here_row, right_row};
ghost use Rattle.order_test.specs.Testing.{Tells, TellsGood, Judges, Fitting, returns_good, open_by};

use fact_rows::{
    GOOD, GROUND, GUARDS, HERE, NEEDS, OWN, PEERS, RIGHT, ROWS, SETS, UNMET, WINDOW, WRONG,
};
use masks::{Ones, has, highest_set, less, one, within};
use table::CAPACITY;

// `e` may be placed as a reader: all its own writers are, or what their latest needs before it is returned from.
fn may_read(facts: &[[u32; CAPACITY]; ROWS], placed: u32, e: u8) -> bool
    requires { e < capacity }
    ensures { Tells facts.now e (λ t. not (reads t e) || may_read t (bit placed) e) result }
{
    let missing = less(facts[OWN][e as usize], placed);
    if missing == 0 {
        return true;
    }
    within(facts[NEEDS][highest_set(missing) as usize], placed)
}

// If `e` reads, it returns its stated value: what its latest own writer wrote, or what is at its location, by the mask `good`.
// What doesn't read is told by its bit there, which every mask of the good has.
pub fn reads_stated(facts: &[[u32; CAPACITY]; ROWS], placed: u32, good: u32, e: u8) -> bool
    requires { e < capacity }
    ensures { Tells facts.now e (λ t. returns_good t placed good e) result }
{
    let missing = less(facts[OWN][e as usize], placed);
    if missing == 0 {
        return has(good, u32::from(e));
    }
    has(facts[RIGHT][highest_set(missing) as usize], u32::from(e))
}

// The window of `v`, which isn't placed, is open.
fn is_open(facts: &[[u32; CAPACITY]; ROWS], placed: u32, v: u32) -> bool
    requires { v < capacity }
    ensures { result ≡ open_by facts.now placed v }
{
    let window = facts[WINDOW][v as usize];
    let ground = facts[GROUND][v as usize];
    (window & placed != 0) & within(ground, placed)
}

// `e` may be placed as a writer: no guard of its location has an open window.
fn may_write(facts: &[[u32; CAPACITY]; ROWS], placed: u32, e: u8) -> bool
    requires { e < capacity }
    ensures { Tells facts.now e (λ t. not (writes t e) || may_write t (bit placed) e) result }
{
    let guards = less(facts[GUARDS][e as usize], placed);
    for v in Ones(guards) {
        if is_open(facts, placed, v) {
            return false;
        }
    }
    true
}

// `e` may be placed.
pub fn may_place(facts: &[[u32; CAPACITY]; ROWS], placed: u32, e: u8) -> bool
    requires { e < capacity }
    ensures { Tells facts.now e (λ t. may_place t (bit placed) e) result }
{
    may_read(facts, placed, e) && may_write(facts, placed, e)
}

// The clean order at the front of the array is lawful.
pub fn is_lawful(facts: &[[u32; CAPACITY]; ROWS], order: &[u8; CAPACITY], len: usize) -> bool
    requires { Fitting order.now len }
    ensures { Judges facts.now (take len order.now) lawful result }
{
    let mut placed: u32 = 0;
    for &e in &order[..len] {
        if !may_place(facts, placed, e) {
            return false;
        }
        placed |= one(u32::from(e));
    }
    true
}

// `e` may be placed, and returns its stated value. That is tested first: it is cheap and usually fails.
fn may_stand(facts: &[[u32; CAPACITY]; ROWS], placed: u32, good: u32, e: u8) -> bool
    requires { e < capacity }
    ensures { TellsGood facts.now good e
        (λ t value. may_place t (bit placed) e && reads_stated t (bit placed) value e) result }
{
    reads_stated(facts, placed, good, e) && may_place(facts, placed, e)
}

// The mask of the good once `e` is placed.
pub fn good_after(facts: &[[u32; CAPACITY]; ROWS], good: u32, e: u8) -> u32
    requires { e < capacity }
    ensures { result ≡
        bit_or (bit_xor good (bit_and good (mask facts.now here_row e))) (mask facts.now right_row e) }
{
    less(good, facts[HERE][e as usize]) | facts[RIGHT][e as usize]
}

// The clean order at the front of the array leaves the stated final values. From its end: a writer of a wrong one may
// not be the last of its location, so that another has to stand behind it.
fn ends_well(facts: &[[u32; CAPACITY]; ROWS], order: &[u8; CAPACITY], len: usize) -> bool
    requires { Fitting order.now len }
    ensures { Judges facts.now (take len order.now) final_values result }
{
    if facts[SETS][UNMET] != 0 {
        return false;
    }
    let mut left = facts[SETS][WRONG];
    for i in (0..len).rev() {
        if left == 0 {
            break;
        }
        let e = order[i];
        if has(left, u32::from(e)) {
            return false;
        }
        left = less(left, facts[PEERS][e as usize]);
    }
    true
}

// The clean order at the front of the array is a witness. The final values are tested first: they often fail at its last entry.
pub fn is_witness(facts: &[[u32; CAPACITY]; ROWS], order: &[u8; CAPACITY], len: usize) -> bool
    requires { Fitting order.now len }
    ensures { Judges facts.now (take len order.now) witness result }
{
    if !ends_well(facts, order, len) {
        return false;
    }
    let mut placed: u32 = 0;
    let mut good = facts[SETS][GOOD];
    for &e in &order[..len] {
        if !may_stand(facts, placed, good, e) {
            return false;
        }
        placed |= one(u32::from(e));
        good = good_after(facts, good, e);
    }
    true
}
