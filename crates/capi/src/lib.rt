// The bench for C: each entry on bytes, with its answer in one word of 64 bits. Nothing is required of a caller.
#![tactic(auto)]

ghost use Rattle.std.specs.Prelude.{◌≡◌};
ghost use Rattle.block.specs.Reading.{read_refusal, read_table};
ghost use Rattle.writer.specs.Writing.{write_refusal, written_block};
ghost use Rattle.suite_part.specs.Part.{block_count};
ghost use Rattle.suite_walk.specs.Tests.{test_length_at, next_block};
ghost use Rattle.bench.specs.Candidate.{verdict_of, returns_refusal, returns_buffer};
ghost use Rattle.bench.specs.PairRules.{rules_of};
ghost use Rattle.bench.specs.Steps.{machine_reply};
ghost use Rattle.bench.specs.Outcomes.{outcome_reply, outcome_buffer, outcomes_reply, outcomes_buffer};
ghost use Rattle.bench.specs.Advice.{advice_reply};
ghost use Rattle.bench.specs.Decisions.{decide_reply, decide_buffer};
ghost use Rattle.text.specs.Texts.{text_refusal, text_table};
ghost use Rattle.bench.specs.Search.{search_reply, search_buffer, pruned_reply, pruned_buffer, text_reply, text_buffer};
ghost use Rattle.answer_word.specs.Words.{refusal_word, judged_word, ruled_word, step_word, outcome_word, outcomes_word, advice_word};
ghost use Rattle.answer_word.specs.Words.{reply_word, decision_word};
ghost use Rattle.capi.specs.Memos.{MemoLeft};
ghost use Rattle.capi.specs.Parts.{part_refusal, part_offset, part_length};

use edition::EditionOne;
use refusals::Refusal;
use table::Table;

// Reading a block.
#[unsafe(no_mangle)]
pub extern "C" fn ct_read(block: &[u8]) -> u64
    ensures { result ≡ refusal_word (read_refusal block.now) }
{
    match bench::read(block) {
        Ok(_) => answer_word::good_word(),
        Err(refusal) => answer_word::refusal_word(refusal),
    }
}

// The table of a block; blank if reading refuses it.
#[unsafe(no_mangle)]
pub extern "C" fn ct_table_of(block: &[u8]) -> Table
    ensures { result ≡ read_table block.now }
{
    match bench::read(block) {
        Ok(t) => t,
        Err(_) => block::no_table(),
    }
}

// Writing a block.
#[unsafe(no_mangle)]
pub extern "C" fn ct_write(t: Table, out: &mut [u8]) -> u64
    ensures value { result ≡ refusal_word (write_refusal t out.old) }
    ensures out_after { out.new ≡ written_block t out.old }
{
    answer_word::done_word(bench::write(t, out))
}

// The verdict for a candidate.
#[unsafe(no_mangle)]
pub extern "C" fn ct_verdict(block: &[u8], returned: &[u8], order: &[u8]) -> u64
    ensures { result ≡ judged_word (verdict_of block.now returned.now order.now) }
{
    answer_word::verdict_word(bench::verdict(block, returned, order))
}

// Every rule by which preserved program order puts a before b.
#[unsafe(no_mangle)]
pub extern "C" fn ct_rules(block: &[u8], returned: &[u8], a: u64, b: u64) -> u64
    ensures { result ≡ ruled_word (rules_of block.now returned.now a b) }
{
    answer_word::pair_word(bench::rules(block, returned, a, b))
}

// One step of the machine for RVTSO behind a list of steps.
#[unsafe(no_mangle)]
pub extern "C" fn ct_step(block: &[u8], steps: &[u8], step: u64) -> u64
    ensures { result ≡ step_word (machine_reply block.now steps.now step) }
{
    answer_word::step_word(bench::step(block, steps, step))
}

// The least outcome above the previous one that some lawful order gives.
#[unsafe(no_mangle)]
pub extern "C" fn ct_outcome(block: &[u8], previous: &[u16], out: &mut [u16], allowance: u64) -> u64
    ensures value { result ≡ outcome_word (outcome_reply block.now previous.now out.old allowance) }
    ensures out_after { out.new ≡ outcome_buffer block.now previous.now out.old allowance }
{
    answer_word::outcome_word(bench::outcome(block, previous, out, allowance))
}

// As many of the next outcomes as the buffer has room for, 64 at most.
#[unsafe(no_mangle)]
pub extern "C" fn ct_outcomes(
    block: &[u8],
    previous: &[u16],
    out: &mut [u16],
    allowance: u64,
) -> u64
    ensures value { result ≡ outcomes_word (outcomes_reply block.now previous.now out.old allowance) }
    ensures out_after { out.new ≡ outcomes_buffer block.now previous.now out.old allowance }
{
    answer_word::outcomes_word(bench::outcomes(block, previous, out, allowance))
}

// The least witness that is greater than the start, or none. It always ends.
#[unsafe(no_mangle)]
pub extern "C" fn ct_decide(block: &[u8], start: &[u8], out: &mut [u8]) -> u64
    ensures value { result ≡ decision_word (decide_reply block.now start.now out.old) }
    ensures out_after { out.new ≡ decide_buffer block.now start.now out.old }
{
    answer_word::decision_word(bench::decide(block, start, out))
}

// The same with a lent memo, whose words don't matter; a refused call leaves them.
#[unsafe(no_mangle)]
pub extern "C" fn ct_decide_with(
    block: &[u8],
    start: &[u8],
    out: &mut [u8],
    memo: &mut [u64],
) -> u64
    ensures value { result ≡ decision_word (decide_reply block.now start.now out.old) }
    ensures out_after { out.new ≡ decide_buffer block.now start.now out.old }
    ensures memo_left { MemoLeft memo.old memo.new
        (decide_reply block.now start.now out.old) }
{
    answer_word::decision_word(bench::decide_with(block, start, out, memo))
}

// Which fences to add, so that the stated outcome has no witness.
#[unsafe(no_mangle)]
pub extern "C" fn ct_advise(block: &[u8], allowance: u64) -> u64
    ensures { result ≡ advice_word (advice_reply block.now allowance) }
{
    answer_word::advice_word(bench::advise(block, allowance))
}

// Writes the returned list that an order determines.
#[unsafe(no_mangle)]
pub extern "C" fn ct_returns(block: &[u8], order: &[u8], out: &mut [u8]) -> u64
    ensures value { result ≡ refusal_word (returns_refusal block.now order.now out.old) }
    ensures out_after { out.new ≡ returns_buffer block.now order.now out.old }
{
    answer_word::done_word(bench::returns(block, order, out))
}

// One search call.
#[unsafe(no_mangle)]
pub extern "C" fn ct_search(block: &[u8], start: &[u8], out: &mut [u8], allowance: u64) -> u64
    ensures value { result ≡ reply_word (search_reply block.now start.now out.old allowance) }
    ensures out_after { out.new ≡ search_buffer block.now start.now out.old allowance }
{
    answer_word::reply_word(bench::search(block, start, out, allowance))
}

// One search call by the second engine. A walk keeps to one engine.
#[unsafe(no_mangle)]
pub extern "C" fn ct_search_pruned(
    block: &[u8],
    start: &[u8],
    out: &mut [u8],
    allowance: u64,
) -> u64
    ensures value { result ≡ reply_word (pruned_reply block.now start.now out.old allowance) }
    ensures out_after { out.new ≡ pruned_buffer block.now start.now out.old allowance }
{
    answer_word::reply_word(bench::search_pruned(block, start, out, allowance))
}

// Reading a text.
#[unsafe(no_mangle)]
pub extern "C" fn ct_read_text(text: &[u8]) -> u64
    ensures { result ≡ refusal_word (text_refusal text.now) }
{
    match bench::read_text(text) {
        Ok(_) => answer_word::good_word(),
        Err(refusal) => answer_word::text_refusal_word(refusal),
    }
}

// The table of a text; blank if reading refuses it.
#[unsafe(no_mangle)]
pub extern "C" fn ct_table_of_text(text: &[u8]) -> Table
    ensures { result ≡ text_table text.now }
{
    match bench::read_text(text) {
        Ok(table) => table,
        Err(_) => block::no_table(),
    }
}

// One search call on a text.
#[unsafe(no_mangle)]
pub extern "C" fn ct_search_text(text: &[u8], start: &[u8], out: &mut [u8], allowance: u64) -> u64
    ensures value { result ≡ reply_word (text_reply text.now start.now out.old allowance) }
    ensures out_after { out.new ≡ text_buffer text.now start.now out.old allowance }
{
    answer_word::text_reply_word(bench::search_text(text, start, out, allowance))
}

// How many blocks a suite has; a last part block counts.
#[unsafe(no_mangle)]
pub extern "C" fn ct_blocks(suite: &[u8]) -> u64
    ensures { result ≡ block_count suite.now }
{
    bench::blocks(suite) as u64
}

// How many bytes the test that begins at block k has: 0 if the suite has no block k; of a cut one what is left.
#[unsafe(no_mangle)]
pub extern "C" fn ct_test_length(suite: &[u8], k: u64) -> u64
    ensures { result ≡ test_length_at suite.now k }
{
    bench::test_length(suite, k as usize) as u64
}

// The number of the block where the test after it begins; k itself if the suite has no block k.
#[unsafe(no_mangle)]
pub extern "C" fn ct_next(suite: &[u8], k: u64) -> u64
    ensures { result ≡ next_block suite.now k }
{
    bench::next(suite, k as usize) as u64
}

// "block number not in the suite"
const NOT_IN_SUITE: u8 = 18;

// Where block k stands in its suite, or the word of its refusal.
#[repr(C)]
#[derive(Clone, Copy)]
pub struct Part {
    pub word: u64,
    pub offset: u64,
    pub length: u64,
}

// Block k of a suite; a last part block counts.
#[unsafe(no_mangle)]
pub extern "C" fn ct_part_of(suite: &[u8], k: u64) -> Part
    ensures word_value { result.word ≡ refusal_word (part_refusal suite.now k) }
    ensures offset_value { result.offset ≡ part_offset suite.now k }
    ensures length_value { result.length ≡ part_length suite.now k }
{
    let block = bench::part(suite, k as usize);
    if block.len() == 0 {
        Part {
            word: answer_word::refusal_word(Refusal::Line(NOT_IN_SUITE)),
            offset: 0,
            length: 0,
        }
    } else {
        Part {
            word: answer_word::good_word(),
            offset: EditionOne::BLOCK as u64 * k,
            length: block.len() as u64,
        }
    }
}
