// Reads the event lines and the initial values of a text. The first breach decides, so all of them are read, also where there are
// more than a table holds: those past its room are counted and not kept.
#![tactic(auto)]

ghost use Rattle.std.specs.Prelude.{◌≤◌, ◌<◌, ◌≡◌, true, [], ◌∷◌, length, get_or, drop, eqb};
ghost use Rattle.text_format.specs.Document.{field_bounds, within};
ghost use Rattle.condition_reader.specs.Steps.{FoundSays};
ghost use Rattle.text_lines.specs.Lines.{event_of};
ghost use Rattle.text_lines.specs.Says.{separator, FieldSays, LineSays, LinesSay, ValuesSay};

use condition_reader::{Breach, Number};
use table::{CAPACITY, Event, LOCATIONS, LocationNo};

// The fields of a line, and where each stands in it: in record order.
const FIELDS: usize = 11;

#[derive(Clone, Copy)]
struct Field;

impl Field {
    const KIND: usize = 0;

    const HART: usize = 1;

    const LOCATION: usize = 2;

    const FLAGS: usize = 3;

    const ADDR: usize = 4;

    const DATA: usize = 5;

    const CTRL: usize = 6;

    const READ: usize = 7;

    const WRITTEN: usize = 8;

    const OPERATION: usize = 9;

    const OPERAND: usize = 10;
}

// The largest number of one byte, of two and of four.
const MAX_BYTE: u32 = 255;

const MAX_WORD: u32 = 65535;

const MAX_LONG: u32 = 4294967295;

// The largest number of each field, in the same order.
const BOUNDS: [u32; FIELDS] = [
    MAX_BYTE, MAX_BYTE, MAX_BYTE, MAX_BYTE, MAX_LONG, MAX_LONG, MAX_LONG, MAX_WORD, MAX_WORD,
    MAX_BYTE, MAX_BYTE,
];

// An event, and the place behind its line.
#[derive(Clone, Copy)]
pub struct EventLine {
    pub event: Event,
    pub next: usize,
}

// The events of the first lines, where the slots past them are blank; the number of lines, and the place behind the blank one.
#[derive(Clone, Copy)]
pub struct EventLines {
    pub events: [Event; CAPACITY],
    pub count: usize,
    pub next: usize,
}

// The first initial values, where those not given are 0; the number of values, and the place behind their newline.
#[derive(Clone, Copy)]
pub struct InitialValues {
    pub initial: [u16; LOCATIONS],
    pub count: usize,
    pub next: usize,
}

// The byte behind a number of a line.
fn read_separator(text: &[u8], at: usize, last: bool) -> Result<usize, Breach>
    requires { at ≤ length text.now }
    ensures { FoundSays text.now at (separator last ∷ []) result }
{
    if last {
        condition_reader::read_word(text, at, b"\n")
    } else {
        condition_reader::read_word(text, at, b" ")
    }
}

// Field `i` of a line: its number, and the byte behind it.
fn read_field(text: &[u8], from: usize, i: usize) -> Result<Number, Breach>
    requires { (from ≤ length text.now) × (i < length field_bounds) }
    ensures { FieldSays text.now from i result }
{
    let number = condition_reader::read_number(text, from, BOUNDS[i])?;
    let next = read_separator(text, number.next, i + 1 == FIELDS)?;
    Ok(Number { next, ..number })
}

// The event of a line's numbers.
fn event_of(fields: [u32; FIELDS]) -> Event
    requires { within field_bounds fields ≡ true }
    ensures { result ≡ event_of fields }
{
    Event {
        kind: fields[Field::KIND] as u8,
        hart: fields[Field::HART] as u8,
        location: LocationNo(fields[Field::LOCATION] as u8),
        flags: fields[Field::FLAGS] as u8,
        addr: fields[Field::ADDR],
        data: fields[Field::DATA],
        ctrl: fields[Field::CTRL],
        read: fields[Field::READ] as u16,
        written: fields[Field::WRITTEN] as u16,
        operation: fields[Field::OPERATION] as u8,
        operand: fields[Field::OPERAND] as u8,
    }
}

// One event line.
pub fn read_line(text: &[u8], from: usize) -> Result<EventLine, Breach>
    requires { from ≤ length text.now }
    ensures { LineSays text.now from result }
{
    let mut fields = [0u32; FIELDS];
    let mut at = from;
    for i in 0..FIELDS {
        let field = read_field(text, at, i)?;
        fields[i] = field.value;
        at = field.next;
    }
    Ok(EventLine {
        event: event_of(fields),
        next: at,
    })
}

// The next byte is this one.
fn next_is(text: &[u8], at: usize, byte: u8) -> bool
    requires { 0 < byte }
    ensures { result ≡ eqb (get_or (drop at text.now) 0 0) byte }
{
    text.get(at) == Some(&byte)
}

// The event lines at the front of a text, and the blank line behind them.
pub fn read_events(text: &[u8]) -> Result<EventLines, Breach>
    ensures { LinesSay text.now result }
{
    let mut events = [table::no_event(); CAPACITY];
    let mut at: usize = 0;
    let mut count: usize = 0;
    while !next_is(text, at, b'\n') {
        let line = read_line(text, at)?;
        at = line.next;
        if count < CAPACITY {
            events[count] = line.event;
        }
        count += 1;
    }
    Ok(EventLines {
        events,
        count,
        next: at + 1,
    })
}

// The initial values from a place on, and the newline behind them.
pub fn read_values(text: &[u8], from: usize) -> Result<InitialValues, Breach>
    requires { from ≤ length text.now }
    ensures { ValuesSay text.now from result }
{
    let mut initial = [0u16; LOCATIONS];
    let mut at = from;
    let mut count: usize = 0;
    loop {
        let number = condition_reader::read_number(text, at, MAX_WORD)?;
        if count < LOCATIONS {
            initial[count] = number.value as u16;
        }
        count += 1;
        if !next_is(text, number.next, b' ') {
            let next = condition_reader::read_word(text, number.next, b"\n")?;
            return Ok(InitialValues {
                initial,
                count,
                next,
            });
        }
        at = number.next + 1;
    }
}
