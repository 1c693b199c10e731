// Lines 5 and 6: tests of the whole table. What looks at the header alone takes its fields: a table by value is copied at each
// call.
#![tactic(auto)]

ghost use Rattle.std.specs.Prelude.{◌≡◌};
ghost use Rattle.lists.specs.Below.{some};
ghost use Rattle.edition.specs.Limits.{max_locations};
ghost use Rattle.table.specs.Events.{capacity};
ghost use Rattle.refusals.specs.TableLines.{states_missing, header_wrong, initial_not_zero, final_not_zero, blank, past_not_blank};

use edition::EditionOne;
use table::{Event, LOCATIONS, Model, Table};

fn states_missing(stated: u8, locations: u8) -> bool
    ensures { result ≡ states_missing stated locations }
{
    for x in 0..LOCATIONS as u8 {
        if masks::has(u32::from(stated), u32::from(x)) & (locations <= x) {
            return true;
        }
    }
    false
}

// `most` is the number of events that the edition allows.
pub fn line5(most: usize, harts: u8, locations: u8, events: u8, stated: u8, model: u8) -> bool
    ensures { result ≡ header_wrong most harts locations events stated model }
{
    refusals::outside(harts, EditionOne::HARTS)
        | refusals::outside(locations, EditionOne::LOCATIONS)
        | refusals::outside(events, most)
        | states_missing(stated, locations)
        | (Model::RVTSO < model)
}

// Line 6 is this and the next two.
pub fn initial_not_zero(locations: u8, initial: [u16; LOCATIONS]) -> bool
    ensures { result ≡ some max_locations (initial_not_zero locations initial) }
{
    for (x, value) in initial.iter().enumerate() {
        if (usize::from(locations) <= x) & (*value != 0) {
            return true;
        }
    }
    false
}

pub fn final_not_zero(stated: u8, finals: [u16; LOCATIONS]) -> bool
    ensures { result ≡ some max_locations (final_not_zero stated finals) }
{
    for x in 0..LOCATIONS as u8 {
        if !masks::has(u32::from(stated), u32::from(x)) & (finals[usize::from(x)] != 0) {
            return true;
        }
    }
    false
}

fn blank(e: Event) -> bool
    ensures { result ≡ blank e }
{
    (e.kind == 0)
        & (e.hart == 0)
        & (e.location.0 == 0)
        & (e.flags == 0)
        & (e.addr == 0)
        & (e.data == 0)
        & (e.ctrl == 0)
        & (e.read == 0)
        & (e.written == 0)
        & (e.operation == 0)
        & (e.operand == 0)
}

pub fn past_not_blank(t: Table) -> bool
    ensures { result ≡ some capacity (past_not_blank t) }
{
    for k in t.count..table::CAPACITY as u8 {
        if !blank(t.events[usize::from(k)]) {
            return true;
        }
    }
    false
}
