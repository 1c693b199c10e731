// The table that an edition 1 block stands for, and the header block of both editions.
#![tactic(auto)]

ghost use Rattle.std.specs.Prelude.{ℕ, ◌+◌, ◌*◌, ◌≤◌, ◌<◌, ◌≡◌, length};
ghost use Rattle.lists.specs.Filled.{up_to};
ghost use Rattle.edition.specs.Limits.{one, block_length, max_locations};
ghost use Rattle.table.specs.Events.{capacity};
ghost use Rattle.decode.specs.Layout.{byte_at, word_at, stored_check};
ghost use Rattle.decode.specs.Decoded.{record_from, event_at, headed, decoded_as};

use edition::EditionOne;
use std::array;
use table::{CAPACITY, Event, LOCATIONS, LocationNo, Table};

pub const MARKER: [u8; 4] = [0x52, 0x56, 0x54, 0x31];

// Where the parts of a block stand.
#[derive(Clone, Copy)]
pub struct At;

impl At {
    pub const EDITION: usize = 4;

    pub const HARTS: usize = 5;

    pub const LOCATIONS: usize = 6;

    pub const EVENTS: usize = 7;

    pub const STATED: usize = 8;

    pub const MODEL: usize = 9;

    pub const INITIAL: usize = 16;

    pub const RECORDS: usize = 32;

    pub const FINALS: usize = 288;

    pub const CHECK: usize = 508;
}

// Where the fields of a record stand, counted from its start.
#[derive(Clone, Copy)]
pub struct Field;

impl Field {
    pub const KIND: usize = 0;

    pub const HART: usize = 1;

    pub const LOCATION: usize = 2;

    pub const FLAGS: usize = 3;

    pub const ADDR: usize = 4;

    pub const DATA: usize = 6;

    pub const CTRL: usize = 8;

    pub const READ: usize = 10;

    pub const WRITTEN: usize = 12;

    pub const OPERATION: usize = 14;

    pub const OPERAND: usize = 15;
}

// Lengths in bytes.
pub const WORD: usize = 2;

pub const RECORD: usize = 16;

pub fn byte_at(s: &[u8], at: usize) -> u8
    requires { at < length s.now }
    ensures { result ≡ byte_at s.now at }
{
    s[at]
}

// The number of two bytes, the low one first.
pub fn word_at(s: &[u8], at: usize) -> u16
    requires { at + 1 < length s.now }
    ensures { result ≡ word_at s.now at }
{
    u16::from_le_bytes([s[at], s[at + 1]])
}

// A mask of a table is wider than a mask of a block.
fn mask_at(s: &[u8], at: usize) -> u32
    requires { at + 1 < length s.now }
    ensures { result ≡ word_at s.now at }
{
    u32::from(word_at(s, at))
}

// The record whose first byte is at `at`.
fn record_at(s: &[u8], at: usize) -> Event
    requires { at + RECORD ≤ length s.now }
    ensures { result ≡ record_from s.now at }
{
    Event {
        kind: byte_at(s, at + Field::KIND),
        hart: byte_at(s, at + Field::HART),
        location: LocationNo(byte_at(s, at + Field::LOCATION)),
        flags: byte_at(s, at + Field::FLAGS),
        addr: mask_at(s, at + Field::ADDR),
        data: mask_at(s, at + Field::DATA),
        ctrl: mask_at(s, at + Field::CTRL),
        read: word_at(s, at + Field::READ),
        written: word_at(s, at + Field::WRITTEN),
        operation: byte_at(s, at + Field::OPERATION),
        operand: byte_at(s, at + Field::OPERAND),
    }
}

// Slot `k` of the table.
fn event_at(s: &[u8], k: usize) -> Event
    requires { (block_length ≤ length s.now) × (k < capacity) }
    ensures { result ≡ event_at one s.now k }
{
    if k < EditionOne::EVENTS {
        record_at(s, At::RECORDS + RECORD * k)
    } else {
        table::no_event()
    }
}

fn events(s: &[u8]) -> [Event; CAPACITY]
    requires { block_length ≤ length s.now }
    ensures { result ≡ up_to capacity (event_at one s.now) }
{
    array::from_fn(|k| event_at(s, k))
}

// One value for each location, from `at` on.
fn values(s: &[u8], at: usize) -> [u16; LOCATIONS]
    requires { at + 2 * max_locations ≤ length s.now }
    ensures { result ≡ up_to max_locations (λ (x : ℕ). word_at s.now (at + 2 * x)) }
{
    array::from_fn(|x| word_at(s, at + WORD * x))
}

// The check that the block states.
pub fn stored_check(s: &[u8]) -> u32
    requires { block_length ≤ length s.now }
    ensures { result ≡ stored_check s.now }
{
    u32::from_le_bytes([
        s[At::CHECK],
        s[At::CHECK + 1],
        s[At::CHECK + 2],
        s[At::CHECK + 3],
    ])
}

// The header block's fields, with these events.
pub fn headed(s: &[u8], events: [Event; CAPACITY]) -> Table
    requires { block_length ≤ length s.now }
    ensures { result ≡ headed s.now events }
{
    Table {
        harts: byte_at(s, At::HARTS),
        locations: byte_at(s, At::LOCATIONS),
        count: byte_at(s, At::EVENTS),
        stated: byte_at(s, At::STATED),
        model: byte_at(s, At::MODEL),
        initial: values(s, At::INITIAL),
        events,
        finals: values(s, At::FINALS),
    }
}

// Any bytes give a table. Whether it is a good one is for the refusals to say.
pub fn decode(s: &[u8]) -> Table
    requires { block_length ≤ length s.now }
    ensures { result ≡ decoded_as one s.now }
{
    headed(s, events(s))
}
