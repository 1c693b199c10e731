// The answers on a table that was read: the verdict for a candidate, the returned list of an order.
#![tactic(auto)]

ghost use Rattle.std.specs.Prelude.{◌≡◌};
ghost use Rattle.refusals.specs.Lines.{first_line, unless, reply_unless};
ghost use Rattle.refusals.specs.Refusals.{refused_by};
ghost use Rattle.table.specs.Events.{memory_count};
ghost use Rattle.model.specs.Returns.{returns};
ghost use Rattle.model.specs.Verdict.{verdict};
ghost use Rattle.table.specs.Counts.{Small};
ghost use Rattle.verdict.specs.Judged.{judged_by};
ghost use Rattle.candidate.specs.Buffers.{written};
ghost use Rattle.answers.specs.Candidate.{candidate_lines, order_lines};

use refusals::Refusal;
use table::Table;
use verdict::Verdict;

// The number of memory events.
fn total(t: Table) -> usize
    requires { Small t }
    ensures { result ≡ memory_count t }
{
    table::memory_mask(t).count_ones() as usize
}

// The verdict for a candidate of a table: 12, 13, 14, then the first axiom that is broken.
pub fn judge(t: Table, returned: &[u8], order: &[u8]) -> Result<Verdict, Refusal>
    requires { Small t }
    ensures { judged_by result ≡ reply_unless (first_line t.count (candidate_lines t returned.now order.now)) (verdict t returned.now order.now) }
{
    if (order.len() != total(t)) | (returned.len() != usize::from(t.count)) {
        return Err(Refusal::Line(12));
    }
    if candidate::order_wrong(t, order) {
        return Err(Refusal::Line(13));
    }
    if candidate::returned_wrong(t, returned) {
        return Err(Refusal::Line(14));
    }
    Ok(verdict::judge(t, returned, order))
}

// The returned list that an order of a table determines: 12, 13, 16, then it is written.
pub fn determine(t: Table, order: &[u8], out: &mut [u8]) -> Result<(), Refusal>
    requires { Small t }
    ensures result_value { refused_by result ≡ first_line t.count (order_lines t order.now out.old) }
    ensures out_after { out.new ≡ unless (first_line t.count (order_lines t order.now out.old)) (written (returns t order.now) out.old) out.old }
{
    if order.len() != total(t) {
        return Err(Refusal::Line(12));
    }
    if candidate::order_wrong(t, order) {
        return Err(Refusal::Line(13));
    }
    if out.len() < usize::from(t.count) {
        return Err(Refusal::Line(16));
    }
    returns::determine(t, order, out);
    Ok(())
}
