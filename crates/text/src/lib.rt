// Reading a test as text: the first refusal, the table, and the words of its condition.
#![tactic(auto)]

ghost use Rattle.std.specs.Prelude.{◌≤◌, max, ◌≡◌, map, length, take, IfOk};
ghost use Rattle.lists.specs.Lists.{any};
ghost use Rattle.table.specs.Events.{capacity};
ghost use Rattle.text_format.specs.Document.{max_text};
ghost use Rattle.condition_reader.specs.Steps.{refusal_in, place_in};
ghost use Rattle.condition_reader.specs.Words.{max_words};
ghost use Rattle.text.specs.Texts.{covering, text_refusal, text_table};
ghost use Rattle.text.specs.TextRefusals.{text_refused_by, text_table_of};
ghost use Rattle.text.specs.declared.TextRefusal.TheVariants.{At, Table};
ghost use Rattle.text.specs.Judged.{ClosingSays, OutcomeSays, PartsSay, table_from, unknown_by, word_unknown, Names, Judged};
ghost use Rattle.text.specs.Accepted.{IfAccepted};

use condition_reader::{Breach, Step};
use edition::{EditionOne, EditionTwo};
use masks::one_if;
use refusals::Refusal;
use table::{CAPACITY, Event, LOCATIONS, Model, Table};
use text_lines::{EventLines, InitialValues};

// The longest text.
const MAX_TEXT: usize = 2048;

// How deep conditions may nest.
const LEVELS: u8 = 8;

// How many numbers there are of one byte.
const BYTES: u32 = 256;

// 19 and 20 with their place; or any other refusal.
#[derive(Clone, Copy)]
pub enum TextRefusal {
    At { number: u8, place: usize },
    Table(Refusal),
}

impl From<Breach> for TextRefusal {
    ghost from_gives = { λ b r. r ≡ At (refusal_in b) (place_in b) };

    fn from(breach: Breach) -> TextRefusal {
        match breach {
            Breach::Illegal(place) => TextRefusal::At { number: 19, place },
            Breach::TooDeep(place) => TextRefusal::At { number: 20, place },
        }
    }
}

impl From<Refusal> for TextRefusal {
    ghost from_gives = { λ q r. r ≡ Table q };

    fn from(refusal: Refusal) -> TextRefusal {
        TextRefusal::Table(refusal)
    }
}

// The condition is the first `len` words of the buffer.
#[derive(Clone, Copy)]
pub struct TextReading {
    pub table: Table,
    pub len: usize,
}

// The parts of a legal text: its condition is the first `len` words of the buffer.
#[derive(Clone, Copy)]
struct Parts {
    lines: EventLines,
    values: InitialValues,
    len: usize,
}

// The least numbers of harts and of locations that cover some events.
#[derive(Clone, Copy)]
struct Covered {
    harts: usize,
    locations: usize,
}

// The newline behind the condition, and the end of the text.
fn read_end(text: &[u8], at: usize) -> Result<(), Breach>
    requires { at ≤ length text.now }
    ensures { ClosingSays text.now at result }
{
    let next = condition_reader::read_word(text, at, b"\n")?;
    if next < text.len() {
        return Err(Breach::Illegal(next));
    }
    Ok(())
}

// The number of words of the condition from a place on, which ends the text.
fn read_outcome(text: &[u8], from: usize, words: &mut [u32]) -> Result<usize, Breach>
    requires { (from ≤ length text.now) × (length text.now ≤ max_text) × (max_words ≤ length words.old) }
    ensures { OutcomeSays text.now from words.new result }
{
    let start = Step { at: from, len: 0 };
    let kept = &mut words[..condition_reader::WORDS];
    let step = condition_reader::read_condition(text, Ok(start), LEVELS, kept)?;
    read_end(text, step.at)?;
    Ok(step.len)
}

// The parts of a text, or its first breach.
fn read_parts(text: &[u8], words: &mut [u32]) -> Result<Parts, Breach>
    requires { (length text.now ≤ max_text) × (max_words ≤ length words.old) }
    ensures { PartsSay text.now words.new result }
{
    let lines = text_lines::read_events(text)?;
    let values = text_lines::read_values(text, lines.next)?;
    let len = read_outcome(text, values.next, words)?;
    Ok(Parts { lines, values, len })
}

fn larger(a: usize, b: usize) -> usize
    ensures { result ≡ max a b }
{
    a.max(b)
}

// What covers the first `count` events.
fn least(events: [Event; CAPACITY], count: usize) -> Covered
    requires { count ≤ capacity }
    ensures harts_value { result.harts ≡ covering (map (λ e. e.hart) (take count events)) }
    ensures locations_value { result.locations ≡ covering (map (λ e. e.location.0) (take count events)) }
{
    let mut harts: usize = 0;
    let mut locations: usize = 0;
    for k in 0..count {
        let e = events[k];
        harts = larger(harts, e.hart as usize + 1);
        locations = larger(locations, e.location.0 as usize + 1);
    }
    Covered { harts, locations }
}

// A word of the condition names an event that doesn't read, or a location not in the test; e is the event with its number.
fn word_unknown(count: u8, locations: u8, e: Event, word: u32) -> bool
    ensures { result ≡ unknown_by count locations e word }
{
    let kind = word % BYTES;
    let number = (word / BYTES) % BYTES;
    if kind == condition_reader::RETURNS {
        return (count as u32 <= number) | !table::reads(e);
    }
    (kind == condition_reader::ENDS) & (locations as u32 <= number)
}

// Line 23, over the words of the condition. An event's number past the slots is past the events, and so any slot does for it.
fn names_unknown(t: Table, words: &[u32], len: usize) -> bool
    requires { (len ≤ length words.now) × (t.count ≤ capacity) }
    ensures { result ≡ any (word_unknown t) (take len words.now) }
{
    for i in 0..len {
        let word = words[i];
        let number = ((word / BYTES) % BYTES) as usize;
        if word_unknown(t.count, t.locations, t.events[number % CAPACITY], word) {
            return true;
        }
    }
    false
}

// The mask of the locations that words name; one past the slots isn't in the test.
fn named_locations(words: &[u32], len: usize) -> u32
    requires { len ≤ length words.now }
    ensures { Names (take len words.now) result }
{
    let mut mask: u32 = 0;
    for i in 0..len {
        let word = words[i];
        let number = ((word / BYTES) % BYTES) as usize;
        let names = (word % BYTES == condition_reader::ENDS) & (number < CAPACITY);
        mask |= one_if(names, (number % CAPACITY) as u8);
    }
    mask
}

// Lines 5 to 11, 23 and 21 of a legal text with this table.
fn judge(t: Table, words: &[u32], len: usize) -> Result<TextReading, TextRefusal>
    requires { len ≤ length words.now }
    ensures { Judged t (take len words.now) len result }
{
    table_lines::refuse_text(t)?;
    if names_unknown(t, words, len) {
        return Err(TextRefusal::Table(Refusal::Line(23)));
    }
    if table_lines::line21(t, named_locations(words, len)) {
        return Err(TextRefusal::Table(Refusal::Line(21)));
    }
    Ok(TextReading { table: t, len })
}

// Too many events, values, harts or locations are 5 before there is a table, whose counts are bytes.
fn tabulate(
    events: [Event; CAPACITY],
    count: usize,
    initial: [u16; LOCATIONS],
    given: usize,
    words: &[u32],
    len: usize,
) -> Result<TextReading, TextRefusal>
    requires { len ≤ length words.now }
    ensures { Judged (table_from events count initial given) (take len words.now) len result }
{
    if EditionTwo::EVENTS < count {
        return Err(TextRefusal::Table(Refusal::Line(5)));
    }
    let fields = least(events, count);
    let locations = larger(given, fields.locations);
    if (EditionOne::HARTS < fields.harts) | (EditionOne::LOCATIONS < locations) {
        return Err(TextRefusal::Table(Refusal::Line(5)));
    }
    let t = Table {
        harts: fields.harts as u8,
        locations: locations as u8,
        count: count as u8,
        stated: 0,
        model: Model::RVWMO,
        initial,
        events,
        finals: [0; LOCATIONS],
    };
    judge(t, words, len)
}

// Any text: the first refusal; or the table, and its condition as the first `len` words.
pub fn read(text: &[u8], words: &mut [u32]) -> Result<TextReading, TextRefusal>
    requires { max_words ≤ length words.old }
    ensures refusal_value { text_refused_by result ≡ text_refusal text.now }
    ensures table_value { text_table_of result ≡ text_table text.now }
    ensures if_accepted { IfOk result (λ r. IfAccepted text.now r.table words.new r.len) }
{
    if MAX_TEXT < text.len() {
        return Err(TextRefusal::Table(Refusal::Line(1)));
    }
    let parts = read_parts(text, words)?;
    let lines = parts.lines;
    let values = parts.values;
    tabulate(
        lines.events,
        lines.count,
        values.initial,
        values.count,
        &*words,
        parts.len,
    )
}
