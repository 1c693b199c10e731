// The bytes that an event's record stands for. Whether it is a good record is for the refusals to say.
#![tactic(auto)]

ghost use Rattle.std.specs.Prelude.{◌+◌, ◌≤◌, ◌<◌, ◌≡◌, length};
ghost use Rattle.std.proofs.lemmas.List.Edits.{sets};
ghost use Rattle.record_bytes.specs.RecordBytes.{two, code_bytes, mask_bytes, operation_bytes, record_bytes};

use decode::{Field, RECORD, WORD};
use table::Event;

// Sets a number of two bytes, the low one first.
pub fn put_word(block: &mut [u8], at: usize, n: u32)
    requires { at + 1 < length block.old }
    ensures { block.new ≡ sets block.old at (two n) }
{
    block[at..at + WORD].copy_from_slice(&n.to_le_bytes()[..WORD]);
}

fn put_codes(block: &mut [u8], at: usize, e: Event)
    requires { at + 4 ≤ length block.old }
    ensures { block.new ≡ sets block.old at (code_bytes e) }
{
    block[at + Field::KIND] = e.kind;
    block[at + Field::HART] = e.hart;
    block[at + Field::LOCATION] = e.location.0;
    block[at + Field::FLAGS] = e.flags;
}

fn put_masks(block: &mut [u8], at: usize, e: Event)
    requires { at + 10 ≤ length block.old }
    ensures { block.new ≡ sets block.old (at + 4) (mask_bytes e) }
{
    put_word(block, at + Field::ADDR, e.addr);
    put_word(block, at + Field::DATA, e.data);
    put_word(block, at + Field::CTRL, e.ctrl);
}

fn put_operation(block: &mut [u8], at: usize, e: Event)
    requires { at + RECORD ≤ length block.old }
    ensures { block.new ≡ sets block.old (at + 14) (operation_bytes e) }
{
    block[at + Field::OPERATION] = e.operation;
    block[at + Field::OPERAND] = e.operand;
}

// Sets the record whose first byte is at `at`.
pub fn put_record(block: &mut [u8], at: usize, e: Event)
    requires { at + RECORD ≤ length block.old }
    ensures { block.new ≡ sets block.old at (record_bytes e) }
{
    put_codes(block, at, e);
    put_masks(block, at, e);
    put_word(block, at + Field::READ, u32::from(e.read));
    put_word(block, at + Field::WRITTEN, u32::from(e.written));
    put_operation(block, at, e);
}
