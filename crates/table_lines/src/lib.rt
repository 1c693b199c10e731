// Lines 5 to 11 and 21 of the table of refusals, each a test of the table, and the first that holds, of a block and of a text.
#![tactic(auto)]

ghost use Rattle.std.specs.Prelude.{◌≤◌, ◌<◌, ◌≡◌, false, [], ◌∷◌, ◌++◌, MatchOption};
ghost use Rattle.lists.specs.Below.{lowest, below};
ghost use Rattle.lists.specs.Lists.{keep};
ghost use Rattle.masks.specs.Bit.{bit};
ghost use Rattle.masks.specs.MaskOf.{mask_of};
ghost use Rattle.edition.specs.Limits.{two, most_events, max_locations};
ghost use Rattle.table.specs.Events.{capacity, memory_mask};
ghost use Rattle.refusals.specs.Lines.{first_line, whole, record_of};
ghost use Rattle.refusals.specs.TableLines.{line7, line8, line9, line10, line11, line21, text_line7, record_lines, table_lines_by};
ghost use Rattle.refusals.specs.Refusals.{refused_by};
ghost use Rattle.table_lines.specs.AsBlock.{as_block, AsBlock};
ghost use Rattle.table_lines.specs.Used.{InTest, Touches};

use edition::EditionTwo;
use masks::{has, lowest_set, one_if};
use operation::Operation;
use refusals::Refusal;
use table::{Event, EventNo, Kind, Table};

// Masks of the records: those that line 7 refuses, and line 8; the memory events.
#[derive(Clone, Copy)]
struct Marks {
    fields: u32,
    annotations: u32,
    memory: u32,
}

// One pass for all, as a table by value is copied at each call.
fn mark_records(t: Table) -> Marks
    requires { t.count ≤ capacity }
    ensures fields_value { result.fields ≡ mask_of (keep (line7 t) (below t.count)) }
    ensures annotations_value { result.annotations ≡ mask_of (keep (line8 t) (below t.count)) }
    ensures memory_value { result.memory ≡ memory_mask t }
{
    let mut fields: u32 = 0;
    let mut annotations: u32 = 0;
    let mut memory: u32 = 0;
    for k in 0..t.count {
        let e = t.events[usize::from(k)];
        fields |= one_if(record_lines::line7(t.harts, t.locations, e), k);
        annotations |= one_if(record_lines::line8(e), k);
        memory |= one_if(table::memory(e), k);
    }
    Marks {
        fields,
        annotations,
        memory,
    }
}

// Most events depend on none, and line 9 holds of none of these: no call, which would copy the table.
fn lowest9(t: Table) -> Option<EventNo>
    requires { t.count ≤ capacity }
    ensures { MatchOption result (lowest t.count (line9 t) ≡ t.count) (λ k. (k.0 < t.count) × (k.0 ≡ lowest t.count (line9 t))) }
{
    for k in 0..t.count {
        if dependency_lines::depends_on_none(t.events[usize::from(k)]) {
            continue;
        }
        if dependency_lines::line9(t, EventNo(k)) {
            return Some(EventNo(k));
        }
    }
    None
}

// Line 10 holds of SCs only.
fn lowest10(t: Table) -> Option<EventNo>
    requires { t.count ≤ capacity }
    ensures { MatchOption result (lowest t.count (line10 t) ≡ t.count) (λ k. (k.0 < t.count) × (k.0 ≡ lowest t.count (line10 t))) }
{
    for k in 0..t.count {
        if t.events[usize::from(k)].kind != Kind::SC {
            continue;
        }
        if dependency_lines::line10(t, EventNo(k)) {
            return Some(EventNo(k));
        }
    }
    None
}

// The first of lines 9 to 11 that holds, of a table with these memory events.
fn refuse_related(t: Table, memory: u32) -> Result<(), Refusal>
    requires { (t.count ≤ capacity) × (memory ≡ memory_mask t) }
    ensures { refused_by result ≡ first_line t.count (record_of 9 (line9 t) ∷ record_of 10 (line10 t) ∷ whole 11 (line11 t) ∷ []) }
{
    if let Some(k) = lowest9(t) {
        return Err(Refusal::Record(9, k));
    }
    if let Some(k) = lowest10(t) {
        return Err(Refusal::Record(10, k));
    }
    if memory == 0 {
        return Err(Refusal::Line(11));
    }
    Ok(())
}

// The first of lines 7 to 11 that holds.
fn refuse_records(t: Table) -> Result<(), Refusal>
    requires { t.count ≤ capacity }
    ensures { refused_by result ≡ first_line t.count (record_lines t) }
{
    let marks = mark_records(t);
    if marks.fields != 0 {
        return Err(Refusal::Record(7, EventNo(lowest_set(marks.fields) as u8)));
    }
    if marks.annotations != 0 {
        return Err(Refusal::Record(8, EventNo(lowest_set(marks.annotations) as u8)));
    }
    if dependency_lines::some_may_break(t) {
        return refuse_related(t, marks.memory);
    }
    if marks.memory == 0 {
        return Err(Refusal::Line(11));
    }
    Ok(())
}

// The mask of the locations that memory events touch.
fn touched(t: Table) -> u32
    requires { (t.count ≤ capacity) × (t.locations ≤ max_locations) × InTest t }
    ensures { Touches t t.count result }
{
    let mut mask: u32 = 0;
    for e in &t.events[..usize::from(t.count)] {
        let memory = table::memory(*e);
        mask |= one_if(memory, e.location.0);
    }
    mask
}

// Line 21, where `named` has the locations whose end is stated.
pub fn line21(t: Table, named: u32) -> bool
    requires { (t.count ≤ capacity) × (t.locations ≤ max_locations) × InTest t }
    ensures { result ≡ line21 (bit named) t }
{
    let used = touched(t) | named;
    for x in 0..t.locations {
        if !has(used, u32::from(x)) {
            return true;
        }
    }
    false
}

// The first of lines 7 to 11 and 21 that holds.
fn refuse_events(t: Table, named: u8) -> Result<(), Refusal>
    requires { (t.count ≤ capacity) × (t.locations ≤ max_locations) }
    ensures { refused_by result ≡ first_line t.count (record_lines t ++ (whole 21 (line21 (bit named) t) ∷ [])) }
{
    refuse_records(t)?;
    if line21(t, u32::from(named)) {
        return Err(Refusal::Line(21));
    }
    Ok(())
}

// The first of lines 5 to 11 and 21 that holds; `most` is the number of events that the edition allows, `extra` what line 6 says
// of bytes that are no field of the table, `named` has the locations whose end is stated.
pub fn refuse(t: Table, named: u8, most: usize, extra: bool) -> Result<(), Refusal>
    requires { most ≤ capacity }
    ensures { refused_by result ≡ first_line t.count (table_lines_by (line7 t) most extra t ++ (whole 21 (line21 (bit named) t) ∷ [])) }
{
    if whole_lines::line5(most, t.harts, t.locations, t.count, t.stated, t.model) {
        return Err(Refusal::Line(5));
    }
    let initial = t.initial;
    let finals = t.finals;
    let unused = whole_lines::initial_not_zero(t.locations, initial)
        | whole_lines::final_not_zero(t.stated, finals)
        | whole_lines::past_not_blank(t);
    if extra | unused {
        return Err(Refusal::Line(6));
    }
    refuse_events(t, named)
}

// No record may have it.
const NO_KIND: u8 = 0;

// A record of a text as one of a block: of no kind where line 7 of a text refuses it; and without its operation, for which no
// later line asks.
fn as_block(harts: u8, locations: u8, e: Event) -> Event
    ensures { result ≡ as_block harts locations e }
{
    let mut record = Event {
        operation: Operation::NONE,
        operand: 0,
        ..e
    };
    if record_lines::text_line7(harts, locations, e) {
        record.kind = NO_KIND;
    }
    record
}

fn table_as_block(t: Table) -> Table
    requires { t.count ≤ capacity }
    ensures { AsBlock t result }
{
    let mut events = t.events;
    for k in 0..t.count {
        let slot = usize::from(k);
        events[slot] = as_block(t.harts, t.locations, t.events[slot]);
    }
    Table { events, ..t }
}

// A mask of all locations.
const EVERY_LOCATION: u8 = 255;

// The first of lines 5 to 11 that holds of a text's table; line 21 comes after the condition's own. They are asked of it as a
// block's: second callers of the functions above would cost each block that is read further copies of its table.
pub fn refuse_text(t: Table) -> Result<(), Refusal>
    ensures { refused_by result ≡ first_line t.count (table_lines_by (text_line7 t) (most_events two) false t) }
{
    if EditionTwo::EVENTS < usize::from(t.count) {
        return Err(Refusal::Line(5));
    }
    refuse(table_as_block(t), EVERY_LOCATION, EditionTwo::EVENTS, false)
}
