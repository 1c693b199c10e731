// An answer as one word of 64 bits, for C.
#![tactic(auto)]

ghost use Rattle.std.specs.Prelude.{◌^◌, ◌<◌, ◌≡◌};
ghost use Rattle.refusals.specs.Lines.{accepted};
ghost use Rattle.refusals.specs.Refusals.{refusal_of, refused_by};
ghost use Rattle.rule_sets.specs.RuleMask.{rules_in};
ghost use Rattle.verdict.specs.Judged.{axiom_of, judged_by};
ghost use Rattle.pair_rules.specs.PairRules.{ruled_by};
ghost use Rattle.steps.specs.Replies.{stepped_by};
ghost use Rattle.advising.specs.Replies.{advice_of};
ghost use Rattle.answer_word.specs.Words.{word, refusal_word, rules_mask, lowest_of, verdict_word, judged_word, ruled_word, step_word, advice_word};
ghost use Rattle.text.specs.TextRefusals.{text_refusal_of};
ghost use Rattle.answer_word.specs.Given.{ending_word, given_word, listed_word, text_given_word, decided_word};
ghost use Rattle.answer_word.specs.Given.{EndingFits, GivenFits, PlaceFits, TextGivenFits, DecisionFits};

use advising::Advice;
use outcome_listing::Listing;
use refusals::Refusal;
use steps::StepTaken;
use text::TextRefusal;
use verdict::{Axiom, Verdict};
use witness_walk::Ending;

// The case of an answer: byte 0 of its word.
#[derive(Clone, Copy)]
struct Case;

impl Case {
    const GOOD: u8 = 0;

    const REFUSED: u8 = 1;

    const PRESERVED_ORDER: u8 = 2;

    const LOAD_VALUE: u8 = 3;

    const ATOMICITY: u8 = 4;

    const VALUE_READ: u8 = 5;

    const FINAL_VALUE: u8 = 6;

    const FOUND: u8 = 7;

    const NONE_LEFT: u8 = 8;

    const SPENT: u8 = 9;

    const STEP_TAKEN: u8 = 10;

    const ADVISED: u8 = 11;

    const UNDECIDED: u8 = 12;

    const NO_HELP: u8 = 13;
}

// The weight of a word's upper half.
const UPPER_HALF: u64 = 4_294_967_296;

// In the place of a record where none is named.
const NO_RECORD: u8 = 255;

fn word(kind: u8, a: u8, b: u8, d: u8, visited: u64) -> u64
    requires { visited < 2 ^ 32 }
    ensures { result ≡ word kind a b d visited }
{
    u64::from(u32::from_le_bytes([kind, a, b, d])) + UPPER_HALF * visited
}

pub fn refusal_word(refusal: Refusal) -> u64
    ensures { result ≡ refusal_word (refusal_of refusal) }
{
    match refusal {
        Refusal::Line(n) => word(Case::REFUSED, n, NO_RECORD, 0, 0),
        Refusal::Record(n, k) => word(Case::REFUSED, n, k.0, 0, 0),
    }
}

// The word where nothing refuses.
pub fn good_word() -> u64
    ensures { result ≡ refusal_word accepted }
{
    word(Case::GOOD, 0, 0, 0, 0)
}

// Of what answers by its buffer alone.
pub fn done_word(done: Result<(), Refusal>) -> u64
    ensures { result ≡ refusal_word (refused_by done) }
{
    match done {
        Ok(()) => good_word(),
        Err(refusal) => refusal_word(refusal),
    }
}

// A refusal of a text; the place is the upper half of the word.
pub fn text_refusal_word(refusal: TextRefusal) -> u64
    requires { PlaceFits refusal }
    ensures { result ≡ refusal_word (text_refusal_of refusal) }
{
    match refusal {
        TextRefusal::At { number, place } => word(
            Case::REFUSED,
            number,
            NO_RECORD,
            0,
            place as u64,
        ),
        TextRefusal::Table(line) => refusal_word(line),
    }
}

// The set of a pair's rules as the upper half of a word.
fn upper_half(set: u16) -> u64
    ensures value { result ≡ rules_mask (rules_in set) }
    ensures upper_bound { result < 2 ^ 32 }
{
    u64::from(set)
}

fn lowest(set: u16) -> u8
    ensures { result ≡ lowest_of (rules_in set) }
{
    rule_sets::lowest_rule(set)
}

fn axiom_word(place: Axiom) -> u64
    ensures { result ≡ verdict_word (axiom_of place) }
{
    match place {
        Axiom::PreservedOrder(a, b, set) => word(
            Case::PRESERVED_ORDER,
            a.0,
            b.0,
            lowest(set),
            upper_half(set),
        ),
        Axiom::LoadValue(reader) => word(Case::LOAD_VALUE, reader.0, 0, 0, 0),
        Axiom::Atomicity(lr, writer) => word(Case::ATOMICITY, lr.0, writer.0, 0, 0),
        Axiom::ValueRead(reader) => word(Case::VALUE_READ, reader.0, 0, 0, 0),
        Axiom::FinalValue(location) => word(Case::FINAL_VALUE, location.0, 0, 0, 0),
    }
}

pub fn verdict_word(reply: Result<Verdict, Refusal>) -> u64
    ensures { result ≡ judged_word (judged_by reply) }
{
    match reply {
        Ok(Verdict::Allowed) => word(Case::GOOD, 0, 0, 0, 0),
        Ok(Verdict::Broken(place)) => axiom_word(place),
        Err(refusal) => refusal_word(refusal),
    }
}

pub fn pair_word(reply: Result<u16, Refusal>) -> u64
    ensures { result ≡ ruled_word (ruled_by reply) }
{
    match reply {
        Ok(set) => word(Case::GOOD, 0, 0, 0, upper_half(set)),
        Err(refusal) => refusal_word(refusal),
    }
}

pub fn step_word(reply: Result<StepTaken, Refusal>) -> u64
    ensures { result ≡ step_word (stepped_by reply) }
{
    match reply {
        Ok(StepTaken { event, entry }) => word(Case::STEP_TAKEN, event, entry, 0, 0),
        Err(refusal) => refusal_word(refusal),
    }
}

// The set of fences is the upper half of the word.
pub fn advice_word(reply: Result<Advice, Refusal>) -> u64
    ensures { result ≡ advice_word (advice_of reply) }
{
    match reply {
        Ok(Advice::Advised(set)) => word(Case::ADVISED, 0, 0, 0, u64::from(set)),
        Ok(Advice::Undecided(set)) => word(Case::UNDECIDED, 0, 0, 0, u64::from(set)),
        Ok(Advice::NoHelp) => word(Case::NO_HELP, 0, 0, 0, 0),
        Err(refusal) => refusal_word(refusal),
    }
}

fn ending_word(ending: Ending) -> u64
    requires { EndingFits ending }
    ensures { result ≡ ending_word ending }
{
    match ending {
        Ending::Found { len, visited } => word(Case::FOUND, len as u8, 0, 0, visited),
        Ending::NoneLeft { visited } => word(Case::NONE_LEFT, 0, 0, 0, visited),
        Ending::Spent { len, visited } => word(Case::SPENT, len as u8, 0, 0, visited),
    }
}

pub fn reply_word(reply: Result<Ending, Refusal>) -> u64
    requires { GivenFits reply }
    ensures { result ≡ given_word reply }
{
    match reply {
        Ok(ending) => ending_word(ending),
        Err(refusal) => refusal_word(refusal),
    }
}

pub fn text_reply_word(reply: Result<Ending, TextRefusal>) -> u64
    requires { TextGivenFits reply }
    ensures { result ≡ text_given_word reply }
{
    match reply {
        Ok(ending) => ending_word(ending),
        Err(refusal) => text_refusal_word(refusal),
    }
}

pub fn outcome_word(reply: Result<Listing, Refusal>) -> u64
    ensures { result ≡ listed_word (λ n. 0) reply }
{
    match reply {
        Ok(
            Listing::Listed {
                outcomes: _,
                values,
            },
        ) => word(Case::FOUND, values, 0, 0, 0),
        Ok(Listing::NoneLeft) => word(Case::NONE_LEFT, 0, 0, 0, 0),
        Ok(Listing::Spent) => word(Case::SPENT, 0, 0, 0, 0),
        Err(refusal) => refusal_word(refusal),
    }
}

// The same with the number of outcomes as the upper half of the word.
pub fn outcomes_word(reply: Result<Listing, Refusal>) -> u64
    ensures { result ≡ listed_word (λ n. n) reply }
{
    match reply {
        Ok(Listing::Listed { outcomes, values }) => word(
            Case::FOUND,
            values,
            0,
            0,
            u64::from(outcomes),
        ),
        Ok(Listing::NoneLeft) => word(Case::NONE_LEFT, 0, 0, 0, 0),
        Ok(Listing::Spent) => word(Case::SPENT, 0, 0, 0, 0),
        Err(refusal) => refusal_word(refusal),
    }
}

pub fn decision_word(reply: Result<Option<usize>, Refusal>) -> u64
    requires { DecisionFits reply }
    ensures { result ≡ decided_word reply }
{
    match reply {
        Ok(Some(len)) => word(Case::FOUND, len as u8, 0, 0, 0),
        Ok(None) => word(Case::NONE_LEFT, 0, 0, 0, 0),
        Err(refusal) => refusal_word(refusal),
    }
}
