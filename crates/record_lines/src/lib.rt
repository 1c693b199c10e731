// Lines 7 and 8: tests of one record's fields, line 7 for blocks and for texts. They take the event and not the table, which is
// copied at each call.
#![tactic(auto)]

ghost use Rattle.std.specs.Prelude.{◌≡◌, ◌&&◌, ◌||◌};
ghost use Rattle.table.specs.Annotations.{acquire_pc, acquire_sc, release_pc, release_sc};
ghost use Rattle.refusals.specs.TableLines.{field_out_of_range, value_not_zero, fence_not_zero, operation_out_of_range, operand_not_zero};
ghost use Rattle.refusals.specs.TableLines.{not_applied, shape_wrong, fields_wrong, value_stated, annotations_wrong};

use operation::Operation;
use table::{Event, Kind};

// Flags have four bits.
const FLAGS: u8 = 16;

fn field_out_of_range(harts: u8, locations: u8, e: Event) -> bool
    ensures { result ≡ field_out_of_range harts locations e }
{
    refusals::outside(e.kind, Kind::FENCE_TSO as usize)
        | (harts <= e.hart)
        | (locations <= e.location.0)
        | (FLAGS <= e.flags)
}

fn value_not_zero(e: Event) -> bool
    ensures { result ≡ value_not_zero e }
{
    (!table::reads(e) & (e.read != 0)) | (!table::writes(e) & (e.written != 0))
}

fn fence_not_zero(e: Event) -> bool
    ensures { result ≡ fence_not_zero e }
{
    (table::fences(e) & ((e.location.0 != 0) | (e.addr != 0) | (e.data != 0) | (e.ctrl != 0)))
        | ((e.kind == Kind::FENCE_TSO) & (e.flags != 0))
}

fn operation_out_of_range(e: Event) -> bool
    ensures { result ≡ operation_out_of_range e }
{
    (Operation::MINU < e.operation) | ((e.kind != Kind::AMO) & (e.operation != Operation::NONE))
}

fn operand_not_zero(e: Event) -> bool
    ensures { result ≡ operand_not_zero e }
{
    (e.operation == Operation::NONE) & (e.operand != 0)
}

fn not_applied(e: Event) -> bool
    ensures { result ≡ not_applied e }
{
    (e.operation != Operation::NONE)
        & (e.written != operation::apply(e.operation, e.read, e.operand))
}

// What line 7 asks of blocks and texts, in a test with so many harts and locations.
fn shape_wrong(harts: u8, locations: u8, e: Event) -> bool
    ensures { result ≡ shape_wrong harts locations e }
{
    field_out_of_range(harts, locations, e)
        | value_not_zero(e)
        | fence_not_zero(e)
        | operation_out_of_range(e)
        | operand_not_zero(e)
}

// Line 7 of a record.
pub fn line7(harts: u8, locations: u8, e: Event) -> bool
    ensures { result ≡ fields_wrong harts locations e }
{
    shape_wrong(harts, locations, e) | not_applied(e)
}

fn value_stated(e: Event) -> bool
    ensures { result ≡ value_stated e }
{
    (e.read != 0) | ((e.operation != Operation::NONE) & (e.written != 0))
}

// Line 7 of a record of a text, where the values read follow from the order.
pub fn text_line7(harts: u8, locations: u8, e: Event) -> bool
    ensures { result ≡ (shape_wrong harts locations e || value_stated e) }
{
    shape_wrong(harts, locations, e) | value_stated(e)
}

fn acquires(flags: u8) -> bool
    ensures { result ≡ (acquire_pc flags || acquire_sc flags) }
{
    masks::has(u32::from(flags), 0) | masks::has(u32::from(flags), 1)
}

fn releases(flags: u8) -> bool
    ensures { result ≡ (release_pc flags || release_sc flags) }
{
    masks::has(u32::from(flags), 2) | masks::has(u32::from(flags), 3)
}

fn both_at_once(flags: u8) -> bool
    ensures { result ≡ (acquire_pc flags && acquire_sc flags || release_pc flags && release_sc flags) }
{
    (masks::has(u32::from(flags), 0) & masks::has(u32::from(flags), 1))
        | (masks::has(u32::from(flags), 2) & masks::has(u32::from(flags), 3))
}

// Line 8 of a record.
pub fn line8(e: Event) -> bool
    ensures { result ≡ annotations_wrong e }
{
    let acquire = acquires(e.flags);
    let release = releases(e.flags);
    let loads = (e.kind == Kind::LOAD) | (e.kind == Kind::LR);
    let stores = (e.kind == Kind::STORE) | (e.kind == Kind::SC);
    table::memory(e)
        & (both_at_once(e.flags) | (loads & release & !acquire) | (stores & acquire & !release))
}
