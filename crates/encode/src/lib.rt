// The bytes that a table stands for. Whether it is a good table is for the refusals to say.
#![tactic(auto)]

ghost use Rattle.std.specs.Prelude.{◌+◌, ◌*◌, ◌≤◌, ◌≡◌, ◌++◌, length};
ghost use Rattle.std.proofs.lemmas.List.Edits.{sets};
ghost use Rattle.edition.specs.Limits.{block_length, max_locations};
ghost use Rattle.checksum.specs.Checksum.{checksum};
ghost use Rattle.encode.specs.Encoded.{four, value_bytes, marker_bytes, count_bytes, records_bytes, encoded};
ghost use Rattle.encode.specs.Begun.{begun, header, front};

use decode::{At, MARKER, RECORD, WORD};
use edition::EditionOne;
use table::{LOCATIONS, Table};

fn put_marker(block: &mut [u8])
    requires { length block.old ≡ block_length }
    ensures { block.new ≡ sets block.old 0 marker_bytes }
{
    block[..At::EDITION].copy_from_slice(&MARKER);
}

fn put_counts(block: &mut [u8], t: Table)
    requires { length block.old ≡ block_length }
    ensures { block.new ≡ sets block.old 4 (count_bytes t) }
{
    block[At::EDITION] = EditionOne::NUMBER;
    block[At::HARTS] = t.harts;
    block[At::LOCATIONS] = t.locations;
    block[At::EVENTS] = t.count;
}

// Sets what stands before the initial values.
fn put_header(block: &mut [u8], t: Table)
    requires { length block.old ≡ block_length }
    ensures { block.new ≡ sets block.old 0 (header t) }
{
    put_marker(block);
    put_counts(block, t);
    block[At::STATED] = t.stated;
    block[At::MODEL] = t.model;
}

// Sets one value for each location, from `at` on.
fn put_values(block: &mut [u8], at: usize, values: [u16; LOCATIONS])
    requires { at + 2 * max_locations ≤ length block.old }
    ensures { block.new ≡ sets block.old at (value_bytes values) }
{
    for (x, value) in values.iter().enumerate() {
        record_bytes::put_word(block, at + WORD * x, u32::from(*value));
    }
}

// Sets the block's records: the first slots of the table.
fn put_records(block: &mut [u8], t: Table)
    requires { block.old ≡ begun (front t) }
    ensures { block.new ≡ begun (front t ++ records_bytes t) }
{
    for (k, event) in t.events[..EditionOne::EVENTS].iter().enumerate() {
        record_bytes::put_record(block, At::RECORDS + RECORD * k, *event);
    }
}

// Sets the check, which is that of the bytes before it.
fn put_check(block: &mut [u8])
    requires { length block.old ≡ block_length }
    ensures { block.new ≡ sets block.old 508 (four (checksum block.old)) }
{
    let check = checksum::checksum(&*block);
    block[At::CHECK..].copy_from_slice(&check.to_le_bytes());
}

// A block starts as zeros, and the named fields are set.
pub fn encode(t: Table) -> [u8; EditionOne::BLOCK]
    ensures { result ≡ encoded t }
{
    let initial = t.initial;
    let finals = t.finals;
    let mut block = [0u8; EditionOne::BLOCK];
    put_header(&mut block, t);
    put_values(&mut block, At::INITIAL, initial);
    put_records(&mut block, t);
    put_values(&mut block, At::FINALS, finals);
    put_check(&mut block);
    block
}
