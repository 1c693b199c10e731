// Writing and reading one after the other: no table and no byte is asked to be within its type, since it has one.
#![tactic(auto)]

mod fits;

ghost use Rattle.std.specs.Prelude.{◌≡◌};
ghost use Rattle.refusals.specs.Lines.{unless};
ghost use Rattle.refusals.specs.Refusals.{refused_by};
ghost use Rattle.block.specs.Reading.{no_table, table_of};
ghost use Rattle.writer.specs.Writing.{write_refusal, written_block};
ghost use Rattle.round_trip.specs.Trips.{rewrite_refusal, rewritten};

use refusals::Refusal;
use table::Table;

// Writes a table's block and reads it: what isn't refused as a table isn't refused as a block, and is that table.
pub fn write_then_read(t: Table, out: &mut [u8]) -> Result<Table, Refusal>
    ensures refusal_value { refused_by result ≡ write_refusal t out.old }
    ensures table_value { table_of result ≡ unless (write_refusal t out.old) t no_table }
    ensures out_after { out.new ≡ written_block t out.old }
{
    fits::table(t);
    writer::write(t, out)?;
    block::read(&*out)
}

// Reads a test and writes what was read: the same bytes, if it is of edition 1.
pub fn read_then_write(bytes: &[u8], out: &mut [u8]) -> Result<(), Refusal>
    ensures result_value { refused_by result ≡ rewrite_refusal bytes.now out.old }
    ensures out_after { out.new ≡ unless (rewrite_refusal bytes.now out.old) (rewritten bytes.now) out.old }
{
    fits::bytes(bytes);
    let t = block::read(bytes)?;
    writer::write(t, out)
}
