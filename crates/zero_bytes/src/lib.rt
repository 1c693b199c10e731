// Line 6, of the bytes named zero that are no field of the table.
#![tactic(auto)]

ghost use Rattle.std.specs.Prelude.{◌+◌, ◌≤◌, ◌≡◌, length};
ghost use Rattle.edition.specs.Limits.{one, two, block_length, test_length};
ghost use Rattle.zero_bytes.specs.ZeroBytes.{some_not_zero, record_zeros, later_zeros, bytes_not_zero};

use decode::{At, RECORD};
use edition::{EditionOne, EditionTwo};

// Where the zero bytes stand.
const HEADER: usize = 10;

const HEADER_ZEROS: usize = 6;

const TAIL: usize = 304;

const TAIL_ZEROS: usize = 204;

// Edition 2 leaves the header block's records blank.
const AREA_ZEROS: usize = RECORD * EditionOne::EVENTS;

// In a wide record, from its start.
const RECORD_END: usize = 22;

const RECORD_ZEROS: usize = 10;

// The blocks behind the header block, and their zeros from a block's start.
const LATER_BLOCKS: usize = EditionTwo::BLOCKS - 1;

const LATER: usize = 480;

const LATER_ZEROS: usize = 28;

// One of the n bytes from `at` isn't zero. They are added up and not tested one by one: wide registers add many at a time.
fn some_not_zero(s: &[u8], at: usize, n: usize) -> bool
    requires { (at + n ≤ length s.now) × (n ≤ block_length) }
    ensures { result ≡ some_not_zero s.now at n }
{
    let mut sum = 0;
    for b in &s[at..at + n] {
        sum += u32::from(*b);
    }
    sum != 0
}

// Of edition 1; and of the header block of edition 2.
pub fn bytes_not_zero(s: &[u8]) -> bool
    requires { block_length ≤ length s.now }
    ensures { result ≡ bytes_not_zero one s.now }
{
    some_not_zero(s, HEADER, HEADER_ZEROS) | some_not_zero(s, TAIL, TAIL_ZEROS)
}

// In one of the wide records.
fn records_not_zero(s: &[u8]) -> bool
    requires { test_length two ≤ length s.now }
    ensures { result ≡ record_zeros s.now }
{
    for k in 0..EditionTwo::EVENTS {
        if some_not_zero(s, wide_records::place(k) + RECORD_END, RECORD_ZEROS) {
            return true;
        }
    }
    false
}

// In one of the two blocks behind the header block.
fn later_not_zero(s: &[u8]) -> bool
    requires { test_length two ≤ length s.now }
    ensures { result ≡ later_zeros s.now }
{
    for b in 0..LATER_BLOCKS {
        if some_not_zero(s, EditionOne::BLOCK * (1 + b) + LATER, LATER_ZEROS) {
            return true;
        }
    }
    false
}

// Of edition 2.
pub fn wide_bytes_not_zero(s: &[u8]) -> bool
    requires { test_length two ≤ length s.now }
    ensures { result ≡ bytes_not_zero two s.now }
{
    bytes_not_zero(s)
        | some_not_zero(s, At::RECORDS, AREA_ZEROS)
        | records_not_zero(s)
        | later_not_zero(s)
}
