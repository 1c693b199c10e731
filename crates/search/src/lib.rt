// A search of a table: what a call is refused for, the walk to the next witness, and its prefix handed out.
#![tactic(auto)]

ghost use Rattle.std.specs.Prelude.{◌≤◌, ◌++◌, ◌≡◌, length, take, drop, Ok};
ghost use Rattle.successors.specs.CleanMasks.{slots};
ghost use Rattle.lists.specs.Reply.{answered};
ghost use Rattle.model.specs.Witness.{stated_outcome};
ghost use Rattle.model.specs.Prefixes.{clean};
ghost use Rattle.model.specs.Settled.{unpruned};
ghost use Rattle.successors.specs.Waiting.{Prepared};
ghost use Rattle.placing.specs.GoodTable.{GoodTable};
ghost use Rattle.event_sets.specs.Sets.{sets_of};
ghost use Rattle.fact_rows.specs.FactRows.{Facts};
ghost use Rattle.witness_walk.specs.Ending.{answer_of};
ghost use Rattle.witness_walk.specs.Running.{AtMost};
ghost use Rattle.search.specs.Replies.{table_reply, buffer_after, reply_of, length_of, prefix_length};
ghost use Rattle.search.specs.Begins.{BeginsAs, Searches, SearchesFor};

use event_sets::Sets;
use fact_rows::ROWS;
use refusals::Refusal;
use successors::SLOTS;
use table::{CAPACITY, Table};
use witness_walk::{Ending, Path};

// The largest allowance.
pub const ALLOWANCE: u64 = 1_000_000_000;

// Copies the first len entries of the order to the front of the buffer.
pub fn copy(order: &[u8; SLOTS], len: usize, out: &mut [u8])
    requires { (length order.now ≡ slots) × (len ≤ slots) × (len ≤ length out.old) }
    ensures { out.new ≡ take len order.now ++ drop len out.old }
{
    out[..len].copy_from_slice(&order[..len]);
}

// Hands out the prefix of an ending; "none left" writes nothing.
fn deliver(ending: Ending, order: &[u8; SLOTS], out: &mut [u8]) -> Ending
    requires { (length order.now ≡ slots) × AtMost slots ending × AtMost (length out.old) ending }
    ensures out_after { reply_of (Ok result) out.new ≡ answered (answer_of ending order.now) }
    ensures out_after_2 { out.new ≡ buffer_after (answered (answer_of ending order.now)) out.old }
    ensures result_value { length_of (Ok result) ≡ prefix_length (answered (answer_of ending order.now)) }
{
    match ending {
        Ending::Found { len, visited } => {
            copy(order, len, out);
            Ending::Found { len, visited }
        }
        Ending::NoneLeft { visited } => Ending::NoneLeft { visited },
        Ending::Spent { len, visited } => {
            copy(order, len, out);
            Ending::Spent { len, visited }
        }
    }
}

// Reads a start into the front of the order and follows it as the walk would; none if it isn't listed.
fn begin(
    facts: &[[u32; CAPACITY]; ROWS],
    pred: &[u32; SLOTS],
    succ: &[u32; SLOTS],
    mem: u32,
    watched: u32,
    start: &[u8],
    order: &mut [u8; SLOTS],
    goods: &mut [u32; SLOTS],
) -> Option<Path>
    requires { Prepared pred.now succ.now mem × (length order.old ≡ slots) × (length goods.old ≡ slots) }
    ensures { BeginsAs facts.now pred.now mem watched start.now order.new goods.new result }
{
    let keep = start.len();
    let masks = engine::load(pred, succ, mem, start, order)?;
    let later = witness_walk::follow(facts, watched, &*order, keep, masks.can, goods)?;
    Some(Path { keep, masks, later })
}

// A search call on a table for what the words say (without words, the outcome that it states), along the prefixes that a walk
// gets to which watches these readers: refusals 15, 16 and 17, how it ended and the buffer, at whose front the prefix of Found
// and Spent stands.
pub fn search_by(
    t: Table,
    s: Sets,
    facts: &[[u32; CAPACITY]; ROWS],
    words: &[u32],
    watched: u32,
    start: &[u8],
    out: &mut [u8],
    allowance: u64,
) -> Result<Ending, Refusal>
    requires { GoodTable t × (s ≡ sets_of t) × Facts t facts.now }
    ensures { Searches t facts.now words.now watched start.now out.old allowance result out.new }
{
    let pred = precedence::predecessors(t, s);
    let mem = table::memory_mask(t);
    let succ = successors::successors(&pred, mem);
    let mut order = [0u8; SLOTS];
    let mut goods = [0u32; SLOTS];
    let begun = begin(
        facts, &pred, &succ, mem, watched, start, &mut order, &mut goods,
    );
    let Some(from) = begun else {
        return Err(Refusal::Line(15));
    };
    if out.len() < u32::count_ones(mem) as usize {
        return Err(Refusal::Line(16));
    }
    if ALLOWANCE < allowance {
        return Err(Refusal::Line(17));
    }
    let ending = witness_walk::walk(
        facts, words, &pred, &succ, mem, watched, &mut order, &mut goods, from, allowance,
    );
    Ok(deliver(ending, &order, out))
}

// A search call on a table along its clean prefixes: no reader is watched.
pub fn search(t: Table, start: &[u8], out: &mut [u8], allowance: u64) -> Result<Ending, Refusal>
    requires { GoodTable t }
    ensures out_after { reply_of result out.new ≡ table_reply t (clean t) (stated_outcome t) start.now out.old allowance }
    ensures out_after_2 { out.new ≡ buffer_after (table_reply t (clean t) (stated_outcome t) start.now out.old allowance) out.old }
    ensures result_value { length_of result ≡ prefix_length (table_reply t (clean t) (stated_outcome t) start.now out.old allowance) }
{
    let s = event_sets::of_table(t);
    let facts = facts::of_table(t, s);
    let words = [0u32; 0];
    search_by(t, s, &facts, &words, 0, start, out, allowance)
}

// The same along the prefixes that aren't pruned: every reader is watched.
pub fn search_pruned(
    t: Table,
    start: &[u8],
    out: &mut [u8],
    allowance: u64,
) -> Result<Ending, Refusal>
    requires { GoodTable t }
    ensures out_after { reply_of result out.new ≡ table_reply t (unpruned t) (stated_outcome t) start.now out.old allowance }
    ensures out_after_2 { out.new ≡ buffer_after (table_reply t (unpruned t) (stated_outcome t) start.now out.old allowance) out.old }
    ensures result_value { length_of result ≡ prefix_length (table_reply t (unpruned t) (stated_outcome t) start.now out.old allowance) }
{
    let s = event_sets::of_table(t);
    let facts = facts::of_table(t, s);
    let words = [0u32; 0];
    search_by(t, s, &facts, &words, s.readers, start, out, allowance)
}

// A search call on a table along its clean prefixes, for the condition of the words.
pub fn search_for(
    t: Table,
    words: &[u32],
    start: &[u8],
    out: &mut [u8],
    allowance: u64,
) -> Result<Ending, Refusal>
    requires { GoodTable t }
    ensures { SearchesFor t words.now start.now out.old allowance result out.new }
{
    let s = event_sets::of_table(t);
    let mut facts = facts::of_table(t, s);
    value_rows::add_values(t, s, &mut facts);
    search_by(t, s, &facts, words, 0, start, out, allowance)
}
