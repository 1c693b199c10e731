// The test of a whole order by the words of a condition (crate `condition_reader`), which are run one after the other with one
// bit. An atom's value is told only where the word is reached. Orders that a walk meets one after the other begin alike: what
// their first entries decide of a run is kept.
#![tactic(auto)]

ghost use Rattle.std.specs.Prelude.{◌/◌, ◌%◌, ◌≤◌, ◌≡◌, not, ◌&&◌, eqb, leb, length, take};
ghost use Rattle.lists.specs.Lists.{all};
ghost use Rattle.table.specs.Events.{capacity};
ghost use Rattle.order_test.specs.Testing.{Fitting};
ghost use Rattle.condition_test.specs.Machine.{kind_of, value_of, decided, skip_behind, plain_word};
ghost use Rattle.condition_reader.specs.Words.{ends_node};
ghost use Rattle.condition_test.specs.Meeting.{HoldsBy, TurnsBy};
ghost use Rattle.condition_test.specs.Kept.{depth_of, noted, Starts, GoesOn, Meets, Begins, Resumes};
ghost use Rattle.condition_test.specs.Wanted.{Witnesses};

use condition_reader::{AND, ENDS, NOT, OR, RETURNS};
use fact_rows::{OPERATED, ROWS, SETS, WRITTEN};
use order_values::{left_values, value_at_end, value_read};
use table::CAPACITY;

// What stands in a word: the kind in byte 0, an atom's number in byte 1 and its value above.
const BYTES: u32 = 256;

fn kind_of(word: u32) -> u32
    ensures { result ≡ kind_of word }
{
    word % BYTES
}

// An atom's number. No event and no location of a table is past its slots.
fn number_of(word: u32) -> u8
    ensures { result ≡ word / 256 % capacity }
{
    (word / BYTES % (CAPACITY as u32)) as u8
}

fn value_of(word: u32) -> u32
    ensures { result ≡ value_of word }
{
    word / BYTES / BYTES
}

// The connective whose left side decides, if it is `bit`.
fn decided(bit: bool) -> u32
    ensures { result ≡ decided bit }
{
    if bit { OR } else { AND }
}

// How many words are skipped behind a word: where its left side decides, those of a connective's right side.
fn skip_behind(bit: bool, word: u32) -> usize
    ensures { result ≡ skip_behind bit word }
{
    if kind_of(word) == decided(bit) {
        (word / BYTES) as usize
    } else {
        0
    }
}

// A bit, and the number of first entries that decide it: it is the same in each clean order that begins with these.
#[derive(Clone, Copy)]
pub struct Turn {
    pub bit: bool,
    pub depth: usize,
}

// An atom holds: its event returns its value, or its location ends at it.
fn atom_holds(
    facts: &[[u32; CAPACITY]; ROWS],
    left: &[u32; CAPACITY],
    order: &[u8; CAPACITY],
    len: usize,
    word: u32,
) -> Turn
    requires { Fitting order.now len }
    ensures holds_by { HoldsBy facts.now left.now (take len order.now) word result.depth result.bit }
    ensures depth_le_capacity { result.depth ≤ capacity }
{
    let number = number_of(word);
    if kind_of(word) == RETURNS {
        let told = value_read(facts, left, order, len, number);
        Turn {
            bit: told.value == value_of(word),
            depth: told.depth,
        }
    } else {
        let told = value_at_end(facts, left, order, len, number);
        Turn {
            bit: told.value == value_of(word),
            depth: told.depth,
        }
    }
}

// The bit behind a word: that of an atom, turned by `not`, or as it was.
fn bit_behind(
    facts: &[[u32; CAPACITY]; ROWS],
    left: &[u32; CAPACITY],
    order: &[u8; CAPACITY],
    len: usize,
    bit: bool,
    word: u32,
) -> Turn
    requires { Fitting order.now len }
    ensures turns_by { TurnsBy facts.now left.now (take len order.now) bit word result.depth result.bit }
    ensures depth_le_capacity { result.depth ≤ capacity }
{
    let kind = kind_of(word);
    if kind <= ENDS {
        return atom_holds(facts, left, order, len, word);
    }
    if kind == NOT {
        return Turn {
            bit: !bit,
            depth: 0,
        };
    }
    Turn { bit, depth: 0 }
}

// What is kept of a run: the word where it goes on, the bit there as a number, how many first entries decide both, and 1 if the
// words join atoms by `and` only.
pub const KEPT: usize = 4;

const NEXT: usize = 0;

const BIT: usize = 1;

const DEPTH: usize = 2;

const PLAIN: usize = 3;

// An atom, or `and`.
fn is_plain_word(word: u32) -> bool
    ensures { result ≡ plain_word word }
{
    let kind = kind_of(word);
    (kind <= ENDS) | (kind == AND)
}

// The words join atoms by `and` only.
fn is_plain(words: &[u32]) -> bool
    ensures { result ≡ all plain_word words.now }
{
    for word in words {
        if !is_plain_word(*word) {
            return false;
        }
    }
    true
}

// A run from the first word on, which holds of every order.
pub fn first(words: &[u32]) -> [usize; KEPT]
    ensures { Starts words.now result }
{
    [0, 1, 0, usize::from(is_plain(words))]
}

fn deeper(a: usize, b: usize) -> usize
    requires { (a ≤ capacity) × (b ≤ capacity) }
    ensures { (a ≤ result) × (b ≤ result) × (result ≤ capacity) }
{
    a.max(b)
}

// Keeps a run unless nearly the whole order decides it: most orders that come next differ in their last entries.
fn note(kept: &mut [usize; KEPT], len: usize, next: usize, bit: bool, depth: usize)
    requires { depth ≤ capacity }
    ensures { kept.new ≡ noted kept.old len next bit depth }
{
    if depth + 1 < len {
        *kept = [next, usize::from(bit), depth, kept[PLAIN]];
    }
}

// The word is an atom that doesn't hold, where all must.
fn refutes(plain: usize, word: u32, bit: bool) -> bool
    ensures { result ≡ (eqb plain 1 && leb (kind_of word) ends_node && not bit) }
{
    (plain == 1) & (kind_of(word) <= ENDS) & !bit
}

// Runs the words on from what is kept, in the clean order at the front of the array: whether their condition holds.
fn run_on(
    facts: &[[u32; CAPACITY]; ROWS],
    left: &[u32; CAPACITY],
    words: &[u32],
    order: &[u8; CAPACITY],
    len: usize,
    kept: &mut [usize; KEPT],
) -> bool
    requires { Fitting order.now len × (depth_of kept.old ≤ len) }
    ensures goes_on { GoesOn facts.now left.now words.now (take len order.now) kept.old result kept.new }
    ensures kept_bound { depth_of kept.new ≤ len }
{
    let mut next = kept[NEXT];
    let mut bit = kept[BIT] == 1;
    let mut depth = kept[DEPTH];
    while next < words.len() {
        let word = words[next];
        let skip = skip_behind(bit, word);
        let turn = bit_behind(facts, left, order, len, bit, word);
        if refutes(kept[PLAIN], word, turn.bit) {
            note(kept, len, words.len(), false, turn.depth);
            return false;
        }
        bit = turn.bit;
        depth = deeper(depth, turn.depth);
        next += 1 + skip;
        note(kept, len, next, bit, depth);
    }
    bit
}

// An order begins with the first `n` entries of the one seen, and has as many.
fn begins(seen: &[u8; CAPACITY], order: &[u8; CAPACITY], len: usize, n: usize) -> bool
    requires { Fitting order.now len × (length seen.now ≡ capacity) }
    ensures { Begins seen.now order.now len n result }
{
    if len < n {
        return false;
    }
    for i in 0..n {
        if order[i] != seen[i] {
            return false;
        }
    }
    true
}

// Leaves what is kept of the order seen where it holds of the order too, else a run from the first word on.
fn resume(seen: &[u8; CAPACITY], order: &[u8; CAPACITY], len: usize, kept: &mut [usize; KEPT])
    requires { Fitting order.now len × (length seen.now ≡ capacity) }
    ensures { Resumes seen.now (take len order.now) len kept.old kept.new }
{
    if !begins(seen, order, len, kept[DEPTH]) {
        *kept = [0, 1, 0, kept[PLAIN]];
    }
}

// The condition of the words holds in the clean order at the front of the array. What is kept was told of the order seen.
pub fn meets(
    facts: &[[u32; CAPACITY]; ROWS],
    words: &[u32],
    order: &[u8; CAPACITY],
    len: usize,
    seen: &mut [u8; CAPACITY],
    kept: &mut [usize; KEPT],
) -> bool
    requires { Fitting order.now len × (length seen.old ≡ capacity) }
    ensures meets { Meets facts.now words.now (take len order.now) seen.old kept.old result seen.new kept.new }
    ensures seen_len { length seen.new ≡ capacity }
{
    resume(&*seen, order, len, kept);
    if words.len() <= kept[NEXT] {
        return kept[BIT] == 1;
    }
    *seen = *order;
    if facts[SETS][OPERATED] == 0 {
        return run_on(facts, &facts[WRITTEN], words, order, len, kept);
    }
    let left = left_values(facts, order, len);
    run_on(facts, &left, words, order, len, kept)
}

// The one word that says that any order will do: of a kind that no word of a condition has.
pub const ANY: u32 = 5;

// The clean order at the front of the array is a witness: of the outcome that the table states, or, if there are words, of their
// condition. Of the word `ANY` each lawful order is one.
pub fn is_witness(
    facts: &[[u32; CAPACITY]; ROWS],
    words: &[u32],
    order: &[u8; CAPACITY],
    len: usize,
    seen: &mut [u8; CAPACITY],
    kept: &mut [usize; KEPT],
) -> bool
    requires { Fitting order.now len × (length seen.old ≡ capacity) }
    ensures witnesses { Witnesses facts.now words.now (take len order.now) seen.old kept.old result seen.new kept.new }
    ensures seen_len { length seen.new ≡ capacity }
{
    if words.is_empty() {
        return order_test::is_witness(facts, order, len);
    }
    if words[0] == ANY {
        return order_test::is_lawful(facts, order, len);
    }
    if meets(facts, words, order, len, seen, kept) {
        order_test::is_lawful(facts, order, len)
    } else {
        false
    }
}
