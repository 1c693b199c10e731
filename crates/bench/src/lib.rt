// The public entries on bytes. Each takes any bytes, lists and numbers, refuses for itself, and has no `requires`.
#![tactic(auto)]

ghost use Rattle.std.specs.Prelude.{◌≤◌, ◌≡◌};
ghost use Rattle.refusals.specs.Refusals.{refused_by};
ghost use Rattle.block.specs.Reading.{read_refusal, read_table, table_of};
ghost use Rattle.writer.specs.Writing.{write_refusal, written_block};
ghost use Rattle.suite_part.specs.Part.{block_of, block_count};
ghost use Rattle.suite_walk.specs.Tests.{test_of, test_length_at, next_block};
ghost use Rattle.verdict.specs.Judged.{judged_by};
ghost use Rattle.pair_rules.specs.PairRules.{ruled_by};
ghost use Rattle.search.specs.Replies.{reply_of, length_of, prefix_length};
ghost use Rattle.bench.specs.Candidate.{verdict_of, returns_refusal, returns_buffer};
ghost use Rattle.bench.specs.PairRules.{rules_of};
ghost use Rattle.steps.specs.Replies.{stepped_by};
ghost use Rattle.bench.specs.Steps.{machine_reply};
ghost use Rattle.outcome_listing.specs.Replies.{most_outcomes, listing_of, values_in, values_of};
ghost use Rattle.bench.specs.Outcomes.{listing_reply, listing_buffer, outcome_reply, outcome_buffer, outcomes_reply, outcomes_buffer};
ghost use Rattle.advising.specs.Replies.{advice_of};
ghost use Rattle.deciding.specs.Replies.{decision_of, decided_length, order_length, MemoAfter};
ghost use Rattle.bench.specs.Advice.{advice_reply};
ghost use Rattle.bench.specs.Decisions.{decide_reply, decide_buffer};
ghost use Rattle.text.specs.Texts.{text_refusal, text_table};
ghost use Rattle.text.specs.TextRefusals.{text_refused_by};
ghost use Rattle.bench.specs.Search.{search_reply, search_buffer, pruned_reply, pruned_buffer, text_reply, text_buffer};
ghost use Rattle.bench.specs.TextReplies.{text_reply_of, text_length_of};

use advising::Advice;
use outcome_listing::Listing;
use refusals::Refusal;
use steps::StepTaken;
use table::Table;
use text::TextRefusal;
use verdict::Verdict;
use witness_walk::Ending;

// Reading a test: refusals 1 to 11 and 21, and the table.
pub fn read(bytes: &[u8]) -> Result<Table, Refusal>
    ensures { (refused_by result ≡ read_refusal bytes.now) × (table_of result ≡ read_table bytes.now) }
{
    block::read(bytes)
}

// Writing a block: refusals 1, 5 to 11 and 21, and the table's bytes.
pub fn write(t: Table, out: &mut [u8]) -> Result<(), Refusal>
    ensures result_value { refused_by result ≡ write_refusal t out.old }
    ensures out_after { out.new ≡ written_block t out.old }
{
    writer::write(t, out)
}

// Block k of a suite, as that part of the caller's bytes; empty if there is none (18).
pub fn part(suite: &[u8], k: usize) -> &[u8]
    ensures { result.now ≡ block_of suite.now k }
{
    suite_part::block(suite, k)
}

// How many blocks a suite has; a last part block counts.
pub fn blocks(suite: &[u8]) -> usize
    ensures { result ≡ block_count suite.now }
{
    suite_part::blocks(suite)
}

// The test that begins at block k, as that part of the caller's bytes: empty if the suite has no block k, cut at the suite's end.
pub fn test(suite: &[u8], k: usize) -> &[u8]
    ensures { result.now ≡ test_of suite.now k }
{
    suite_walk::test(suite, k)
}

// How many bytes it has.
pub fn test_length(suite: &[u8], k: usize) -> usize
    ensures { result ≡ test_length_at suite.now k }
{
    suite_walk::test_length(suite, k)
}

// The number of the block where the test after it begins; k itself if the suite has no block k.
pub fn next(suite: &[u8], k: usize) -> usize
    ensures { result ≡ next_block suite.now k }
{
    suite_walk::next(suite, k)
}

// The verdict for a candidate.
pub fn verdict(bytes: &[u8], returned: &[u8], order: &[u8]) -> Result<Verdict, Refusal>
    ensures { judged_by result ≡ verdict_of bytes.now returned.now order.now }
{
    let t = block::read(bytes)?;
    answers::judge(t, returned, order)
}

// Every rule by which preserved program order puts a before b, with the returns given.
pub fn rules(bytes: &[u8], returned: &[u8], a: u64, b: u64) -> Result<u16, Refusal>
    ensures { ruled_by result ≡ rules_of bytes.now returned.now a b }
{
    let t = block::read(bytes)?;
    pair_rules::pair(t, returned, a, b)
}

// One step of the machine for RVTSO behind a list of steps, for any number as the step.
pub fn step(bytes: &[u8], steps: &[u8], b: u64) -> Result<StepTaken, Refusal>
    ensures { stepped_by result ≡ machine_reply bytes.now steps.now b }
{
    let t = block::read(bytes)?;
    steps::answer(t, steps, b)
}

// The least witness that is greater than the start, written to the front of the buffer; none: there is no other. It always ends.
pub fn decide(bytes: &[u8], start: &[u8], out: &mut [u8]) -> Result<Option<usize>, Refusal>
    ensures out_after { decision_of result out.new ≡ decide_reply bytes.now start.now out.old }
    ensures out_after_2 { out.new ≡ decide_buffer bytes.now start.now out.old }
    ensures result_value { decided_length result ≡ order_length (decide_reply bytes.now start.now out.old) }
{
    let t = block::read(bytes)?;
    deciding::decide(t, start, out)
}

// The same with a lent memo: the longer it is, the less is looked at twice. What is in it, before and after, is of no account.
pub fn decide_with(
    bytes: &[u8],
    start: &[u8],
    out: &mut [u8],
    memo: &mut [u64],
) -> Result<Option<usize>, Refusal>
    ensures out_after { decision_of result out.new ≡ decide_reply bytes.now start.now out.old }
    ensures out_after_2 { out.new ≡ decide_buffer bytes.now start.now out.old }
    ensures result_value { decided_length result ≡ order_length (decide_reply bytes.now start.now out.old) }
    ensures memo_after { MemoAfter memo.old memo.new result }
{
    let t = block::read(bytes)?;
    deciding::decide_with(t, start, out, memo)
}

// Which fences to add, so that the stated outcome has no witness: each set is searched with the allowance.
pub fn advise(bytes: &[u8], allowance: u64) -> Result<Advice, Refusal>
    ensures { advice_of result ≡ advice_reply bytes.now allowance }
{
    let t = block::read(bytes)?;
    advising::advise(t, allowance)
}

// Writes the returned list that an order determines.
pub fn returns(bytes: &[u8], order: &[u8], out: &mut [u8]) -> Result<(), Refusal>
    ensures result_value { refused_by result ≡ returns_refusal bytes.now order.now out.old }
    ensures out_after { out.new ≡ returns_buffer bytes.now order.now out.old }
{
    let t = block::read(bytes)?;
    answers::determine(t, order, out)
}

// One search call.
pub fn search(bytes: &[u8], start: &[u8], out: &mut [u8], allowance: u64) -> Result<Ending, Refusal>
    ensures out_after { reply_of result out.new ≡ search_reply bytes.now start.now out.old allowance }
    ensures out_after_2 { out.new ≡ search_buffer bytes.now start.now out.old allowance }
    ensures result_value { length_of result ≡ prefix_length (search_reply bytes.now start.now out.old allowance) }
{
    let test = block::read(bytes)?;
    search::search(test, start, out, allowance)
}

// One search call by the second engine, which gives up a prefix as soon as a value differs from the stated one.
pub fn search_pruned(
    bytes: &[u8],
    start: &[u8],
    out: &mut [u8],
    allowance: u64,
) -> Result<Ending, Refusal>
    ensures out_after { reply_of result out.new ≡ pruned_reply bytes.now start.now out.old allowance }
    ensures out_after_2 { out.new ≡ pruned_buffer bytes.now start.now out.old allowance }
    ensures result_value { length_of result ≡ prefix_length (pruned_reply bytes.now start.now out.old allowance) }
{
    let t = block::read(bytes)?;
    search::search_pruned(t, start, out, allowance)
}

// The outcomes that come next, at most so many.
fn next_outcomes(
    bytes: &[u8],
    previous: &[u16],
    out: &mut [u16],
    most: usize,
    allowance: u64,
) -> Result<Listing, Refusal>
    requires { most ≤ most_outcomes }
    ensures out_after { listing_of result out.new ≡ listing_reply most bytes.now previous.now out.old allowance }
    ensures out_after_2 { out.new ≡ listing_buffer most bytes.now previous.now out.old allowance }
    ensures result_value { values_of result ≡ values_in (listing_reply most bytes.now previous.now out.old allowance) }
{
    let t = block::read(bytes)?;
    outcome_listing::list(t, previous, out, most, allowance)
}

// The least outcome above the previous one that some lawful order gives; an empty list stands for none.
pub fn outcome(
    bytes: &[u8],
    previous: &[u16],
    out: &mut [u16],
    allowance: u64,
) -> Result<Listing, Refusal>
    ensures out_after { listing_of result out.new ≡ outcome_reply bytes.now previous.now out.old allowance }
    ensures out_after_2 { out.new ≡ outcome_buffer bytes.now previous.now out.old allowance }
    ensures result_value { values_of result ≡ values_in (outcome_reply bytes.now previous.now out.old allowance) }
{
    next_outcomes(bytes, previous, out, 1, allowance)
}

// The same of as many outcomes as the buffer has room for, 64 at most, one behind the other: one walk serves for all of them.
pub fn outcomes(
    bytes: &[u8],
    previous: &[u16],
    out: &mut [u16],
    allowance: u64,
) -> Result<Listing, Refusal>
    ensures out_after { listing_of result out.new ≡ outcomes_reply bytes.now previous.now out.old allowance }
    ensures out_after_2 { out.new ≡ outcomes_buffer bytes.now previous.now out.old allowance }
    ensures result_value { values_of result ≡ values_in (outcomes_reply bytes.now previous.now out.old allowance) }
{
    next_outcomes(bytes, previous, out, sorted_rows::MOST, allowance)
}

// Reading a text: refusals 1, 19, 20, 5 to 11, 23 and 21, and the table.
pub fn read_text(text: &[u8]) -> Result<Table, TextRefusal>
    ensures { (text_refused_by result ≡ text_refusal text.now) × (table_of result ≡ text_table text.now) }
{
    let mut words = [0u32; condition_reader::WORDS];
    let reading = text::read(text, &mut words)?;
    Ok(reading.table)
}

// One search call on a text, for an order that makes its condition true.
pub fn search_text(
    text: &[u8],
    start: &[u8],
    out: &mut [u8],
    allowance: u64,
) -> Result<Ending, TextRefusal>
    ensures out_after { text_reply_of result out.new ≡ text_reply text.now start.now out.old allowance }
    ensures out_after_2 { out.new ≡ text_buffer text.now start.now out.old allowance }
    ensures result_value { text_length_of result ≡ prefix_length (text_reply text.now start.now out.old allowance) }
{
    let mut words = [0u32; condition_reader::WORDS];
    let test = text::read(text, &mut words)?;
    let ending = search::search_for(test.table, &words[..test.len], start, out, allowance)?;
    Ok(ending)
}
