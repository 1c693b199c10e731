// The facts of a table (crate `order_facts`), made once a call: the test of a whole order reads them in place of the table.
#![tactic(auto)]

ghost use Rattle.std.specs.Prelude.{◌≤◌, ◌<◌, ◌≡◌, not, ◌&&◌, eqb, get_or};
ghost use Rattle.lists.specs.Below.{below};
ghost use Rattle.lists.specs.Lists.{keep};
ghost use Rattle.masks.specs.Bit.{bit};
ghost use Rattle.masks.specs.MaskOf.{mask_of};
ghost use Rattle.edition.specs.Limits.{max_harts, max_locations};
ghost use Rattle.table.specs.Events.{capacity, writing_kind};
ghost use Rattle.table.specs.Counts.{Small};
ghost use Rattle.model.specs.Returns.{initial_value};
ghost use Rattle.placing.specs.GoodTable.{GoodTable};
ghost use Rattle.order_facts.specs.Facts.{mask_by, opens, good, wrong, unmet};
ghost use Rattle.fact_rows.specs.FactRows.{Facts, masks_by, good_word, wrong_word, unmet_word};
ghost use Rattle.event_sets.specs.Sets.{sets_of};
ghost use Rattle.facts.specs.Rows.{around_of, stated_values};

use event_sets::Sets;
use fact_rows::{
    Around, GOOD, ROWS, UNMET, WRONG, ground_row, guard_row, here_row, needs_row, own_row,
    peer_row, right_row, window_row,
};
use masks::{has, one_if};
use table::{CAPACITY, Event, Table};

// Event `number` of `count`, which is `e`, with the sets that its rows are made from.
fn around(s: Sets, count: u8, number: u8, e: Event) -> Around
    requires { (e.hart < max_harts) × (e.location.0 < max_locations) }
    ensures { result ≡ around_of s count number e }
{
    Around {
        count,
        number,
        event: e,
        readers: s.readers,
        writers: s.writers,
        place: s.locations[e.location.0 as usize],
        hart: s.harts[e.hart as usize],
    }
}

// `x` writes to a location whose final value is stated.
fn writes_stated(stated: u8, x: Event) -> bool
    requires { x.location.0 < max_locations }
    ensures { result ≡ (writing_kind x.kind && bit stated x.location.0) }
{
    table::writes(x) & has(stated as u32, x.location.0 as u32)
}

// Made in one pass, as a table by value is copied at each call.
#[derive(Clone, Copy)]
struct Seen {
    // For each event its window, and the value that it states.
    window: [u32; CAPACITY],
    values: [u16; CAPACITY],
    // The good at the start, and the writers of wrong final values.
    good: u32,
    wrong: u32,
}

fn look(t: Table, s: Sets) -> Seen
    requires { GoodTable t × (s ≡ sets_of t) }
    ensures window_value { (result.window ≡ masks_by t (opens t)) × (result.values ≡ stated_values t) }
    ensures good_value { (result.good ≡ mask_by t (good t (initial_value t))) × (result.wrong ≡ mask_by t (wrong t)) }
{
    let mut window = [0u32; CAPACITY];
    let mut values = [0u16; CAPACITY];
    let mut good: u32 = 0;
    let mut wrong: u32 = 0;
    for e in 0..t.count {
        let x = t.events[e as usize];
        let a = around(s, t.count, e, x);
        window[e as usize] = window_row(a, s.reserving);
        values[e as usize] = x.read;
        let k = x.location.0 as usize;
        good |= one_if(!table::reads(x) | (t.initial[k] == x.read), e);
        wrong |= one_if(writes_stated(t.stated, x) & (x.written != t.finals[k]), e);
    }
    Seen {
        window,
        values,
        good,
        wrong,
    }
}

// The mask of the events whose row isn't empty.
fn filled(rows: &[u32; CAPACITY], count: u8) -> u32
    requires { count ≤ capacity }
    ensures { result ≡ mask_of (keep (λ e. not (eqb (get_or rows.now e 0) 0)) (below count)) }
{
    let mut mask: u32 = 0;
    for e in 0..count {
        mask |= one_if(rows[e as usize] != 0, e);
    }
    mask
}

// The mask of the locations that nothing writes and whose stated final value isn't the initial one.
fn unmet_word(t: Table, s: Sets) -> u32
    requires { Small t × (s ≡ sets_of t) }
    ensures { result ≡ mask_of (keep (unmet t) (below t.locations)) }
{
    let mut mask: u32 = 0;
    for x in 0..t.locations {
        let k = x as usize;
        let unwritten = (s.writers & s.locations[k]) == 0;
        let differs = t.initial[k] != t.finals[k];
        mask |= one_if(has(t.stated as u32, x as u32) & unwritten & differs, x);
    }
    mask
}

// The words of the last row: the good at the start, the writers of wrong final values, and the locations that aren't met.
fn words(good: u32, wrong: u32, unmet: u32) -> [u32; CAPACITY]
    ensures { (get_or result good_word 0 ≡ good) × (get_or result wrong_word 0 ≡ wrong) × (get_or result unmet_word 0 ≡ unmet) }
{
    let mut row = [0u32; CAPACITY];
    row[GOOD] = good;
    row[WRONG] = wrong;
    row[UNMET] = unmet;
    row
}

pub fn of_table(t: Table, s: Sets) -> [[u32; CAPACITY]; ROWS]
    requires { GoodTable t × (s ≡ sets_of t) }
    ensures { Facts t result }
{
    let seen = look(t, s);
    let window = seen.window;
    let stated = seen.values;
    let windows = filled(&window, t.count);
    let mut own = [0u32; CAPACITY];
    let mut needs = [0u32; CAPACITY];
    let mut ground = [0u32; CAPACITY];
    let mut guards = [0u32; CAPACITY];
    let mut here = [0u32; CAPACITY];
    let mut right = [0u32; CAPACITY];
    let mut peers = [0u32; CAPACITY];
    for e in 0..t.count {
        let k = e as usize;
        let x = t.events[k];
        let a = around(s, t.count, e, x);
        own[k] = own_row(a);
        needs[k] = needs_row(a);
        ground[k] = ground_row(a, window[k]);
        guards[k] = guard_row(a, windows);
        let readers = here_row(a);
        here[k] = readers;
        right[k] = right_row(&stated, readers, x.written);
        peers[k] = peer_row(a);
    }
    let sets = words(seen.good, seen.wrong, unmet_word(t, s));
    // The rows that only texts have.
    let none = [0u32; CAPACITY];
    [
        own, needs, window, ground, guards, here, right, peers, sets, none, none, none, none, none,
    ]
}
