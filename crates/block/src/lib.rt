// Reading a test of either edition: refusals 1 to 11 and 21, and the table.
#![tactic(auto)]

ghost use Rattle.std.specs.Prelude.{◌≤◌, ◌≡◌, length};
ghost use Rattle.edition.specs.Limits.{one, two, block_length, test_length};
ghost use Rattle.block.specs.Reading.{no_table, line2, line3, later_check_wrong, Reads, ReadsAs};

use decode::{At, MARKER};
use edition::{EditionOne, EditionTwo};
use refusals::Refusal;
use table::Table;

// The blank table, which C is given where reading refuses.
pub fn no_table() -> Table
    ensures { result ≡ no_table }
{
    Table {
        harts: 0,
        locations: 0,
        count: 0,
        stated: 0,
        model: 0,
        initial: [0; table::LOCATIONS],
        events: [table::no_event(); table::CAPACITY],
        finals: [0; table::LOCATIONS],
    }
}

pub fn check_wrong(s: &[u8]) -> bool
    requires { block_length ≤ length s.now }
    ensures { result ≡ line2 s.now }
{
    decode::stored_check(s) != checksum::checksum(s)
}

pub fn marker_wrong(s: &[u8]) -> bool
    requires { block_length ≤ length s.now }
    ensures { result ≡ line3 s.now }
{
    !s.starts_with(&MARKER)
}

// What edition 1 asks, and the table.
fn read_one(s: &[u8]) -> Result<Table, Refusal>
    requires { block_length ≤ length s.now }
    ensures { ReadsAs one s.now result }
{
    if s.len() != EditionOne::BLOCK {
        return Err(Refusal::Line(1));
    }
    let t = decode::decode(s);
    let extra = zero_bytes::bytes_not_zero(s);
    table_lines::refuse(t, t.stated, EditionOne::EVENTS, extra)?;
    Ok(t)
}

// The check of a block behind the first.
fn later_check_wrong(s: &[u8]) -> bool
    requires { length s.now ≡ test_length two }
    ensures { result ≡ later_check_wrong two s.now }
{
    check_wrong(suite_part::block(s, 1)) | check_wrong(suite_part::block(s, 2))
}

// What edition 2 asks, and the table.
fn read_two(s: &[u8]) -> Result<Table, Refusal>
    requires { block_length ≤ length s.now }
    ensures { ReadsAs two s.now result }
{
    if s.len() != EditionTwo::TEST {
        return Err(Refusal::Line(1));
    }
    if later_check_wrong(s) {
        return Err(Refusal::Line(2));
    }
    let t = wide_records::decode(s);
    let extra = zero_bytes::wide_bytes_not_zero(s);
    table_lines::refuse(t, t.stated, EditionTwo::EVENTS, extra)?;
    Ok(t)
}

// Any bytes: the first refusal of 1 to 11 and 21, or the table.
pub fn read(s: &[u8]) -> Result<Table, Refusal>
    ensures { Reads s.now result }
{
    if s.len() < EditionOne::BLOCK {
        return Err(Refusal::Line(1));
    }
    if check_wrong(s) {
        return Err(Refusal::Line(2));
    }
    if marker_wrong(s) {
        return Err(Refusal::Line(3));
    }
    if s[At::EDITION] == EditionOne::NUMBER {
        return read_one(s);
    }
    if s[At::EDITION] == EditionTwo::NUMBER {
        return read_two(s);
    }
    Err(Refusal::Line(4))
}
