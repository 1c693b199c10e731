// The table that an edition 2 test stands for: the header block's fields and thirty wide records in the two blocks behind it.
#![tactic(auto)]

ghost use Rattle.std.specs.Prelude.{◌+◌, ◌*◌, ◌≤◌, ◌<◌, ◌≡◌, length};
ghost use Rattle.lists.specs.Filled.{up_to};
ghost use Rattle.edition.specs.Limits.{two, most_events, test_length};
ghost use Rattle.table.specs.Events.{capacity};
ghost use Rattle.decode.specs.Layout.{long_at, wide_record_at};
ghost use Rattle.decode.specs.Decoded.{wide_record_from, event_at, decoded_as};

use edition::{EditionOne, EditionTwo};
use std::array;
use table::{CAPACITY, Event, LocationNo, Table};

// Where the fields of a wide record stand, counted from its start.
#[derive(Clone, Copy)]
struct Field;

impl Field {
    const KIND: usize = 0;

    const HART: usize = 1;

    const LOCATION: usize = 2;

    const FLAGS: usize = 3;

    const ADDR: usize = 4;

    const DATA: usize = 8;

    const CTRL: usize = 12;

    const READ: usize = 16;

    const WRITTEN: usize = 18;

    const OPERATION: usize = 20;

    const OPERAND: usize = 21;
}

// A record's length in bytes, and how many stand in a block.
const RECORD: usize = 32;

const RECORDS: usize = 15;

// The number of four bytes, the low one first.
fn long_at(s: &[u8], at: usize) -> u32
    requires { at + 3 < length s.now }
    ensures { result ≡ long_at s.now at }
{
    u32::from_le_bytes([s[at], s[at + 1], s[at + 2], s[at + 3]])
}

// The wide record whose first byte is at `at`.
fn record_at(s: &[u8], at: usize) -> Event
    requires { at + RECORD ≤ length s.now }
    ensures { result ≡ wide_record_from s.now at }
{
    Event {
        kind: decode::byte_at(s, at + Field::KIND),
        hart: decode::byte_at(s, at + Field::HART),
        location: LocationNo(decode::byte_at(s, at + Field::LOCATION)),
        flags: decode::byte_at(s, at + Field::FLAGS),
        addr: long_at(s, at + Field::ADDR),
        data: long_at(s, at + Field::DATA),
        ctrl: long_at(s, at + Field::CTRL),
        read: decode::word_at(s, at + Field::READ),
        written: decode::word_at(s, at + Field::WRITTEN),
        operation: decode::byte_at(s, at + Field::OPERATION),
        operand: decode::byte_at(s, at + Field::OPERAND),
    }
}

// Where record `k` begins.
pub fn place(k: usize) -> usize
    requires { k < most_events two }
    ensures { result ≡ wide_record_at k }
{
    EditionOne::BLOCK * (1 + k / RECORDS) + RECORD * (k % RECORDS)
}

// Slot `k` of the table.
fn event_at(s: &[u8], k: usize) -> Event
    requires { (test_length two ≤ length s.now) × (k < capacity) }
    ensures { result ≡ event_at two s.now k }
{
    if k < EditionTwo::EVENTS {
        record_at(s, place(k))
    } else {
        table::no_event()
    }
}

fn events(s: &[u8]) -> [Event; CAPACITY]
    requires { test_length two ≤ length s.now }
    ensures { result ≡ up_to capacity (event_at two s.now) }
{
    array::from_fn(|k| event_at(s, k))
}

// Any bytes give a table. Whether it is a good one is for the refusals to say.
pub fn decode(s: &[u8]) -> Table
    requires { test_length two ≤ length s.now }
    ensures { result ≡ decoded_as two s.now }
{
    decode::headed(s, events(s))
}
