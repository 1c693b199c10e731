// Writing a block: refusals 1, 5 to 11 and 21, and the bytes.
#![tactic(auto)]

ghost use Rattle.std.specs.Prelude.{◌≡◌, length};
ghost use Rattle.edition.specs.Limits.{block_length};
ghost use Rattle.refusals.specs.Refusals.{refused_by};
ghost use Rattle.writer.specs.Writing.{write_refusal, written_block};

use edition::EditionOne;
use refusals::Refusal;
use table::Table;

// Writing to 512 bytes.
fn write_whole(t: Table, out: &mut [u8]) -> Result<(), Refusal>
    requires { length out.old ≡ block_length }
    ensures result_value { refused_by result ≡ write_refusal t out.old }
    ensures out_after { out.new ≡ written_block t out.old }
{
    table_lines::refuse(t, t.stated, EditionOne::EVENTS, false)?;
    out.copy_from_slice(&encode::encode(t));
    Ok(())
}

// Any table and any buffer: the lowest refusal of 1, 5 to 11 and 21, or the table's block in the buffer.
pub fn write(t: Table, out: &mut [u8]) -> Result<(), Refusal>
    ensures result_value { refused_by result ≡ write_refusal t out.old }
    ensures out_after { out.new ≡ written_block t out.old }
{
    if out.len() != EditionOne::BLOCK {
        return Err(Refusal::Line(1));
    }
    write_whole(t, out)
}
