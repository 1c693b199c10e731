// The suite program: for each test of standard input, one line as soon as its search is done; and how many tests there were.
#![tactic(auto)]

mod held;

ghost use Rattle.std.specs.Prelude.{◌≤◌, ◌≡◌, length, Ok};
ghost use Rattle.edition.specs.Limits.{two, test_length};
ghost use Rattle.suite_walk.specs.Tests.{test_of};
ghost use Rattle.witness_walk.specs.Ending.{answer_of};
ghost use Rattle.search.specs.Replies.{reply_of, length_of};
ghost use Rattle.console.specs.Lines.{kept, AddsTo};
ghost use Rattle.suite.specs.Held.{Turned};
ghost use Rattle.suite.specs.SuiteLine.{visited, no_answer, answer_text, reply_text, suite_line, closing_line};

use console::{Command, Line};
use edition::EditionTwo;
use held::Step;
use refusals::Refusal;
use std::io;
use witness_walk::Ending;

// How many prefixes a test's search may visit.
const ALLOWANCE: u64 = 1_000_000;

// So many that the number of a test's first block is still a u64.
const MOST_TESTS: u64 = u64::MAX / EditionTwo::BLOCKS as u64;

fn visited(line: Line, n: u64) -> Line
    ensures { AddsTo line (visited n) result }
{
    line.number(n).text(b" visited")
}

fn ended(line: Line, o: Ending, answer: &[u8]) -> Line
    requires { length_of (Ok o) ≤ length answer.now }
    ensures { AddsTo line (answer_text (answer_of o answer.now)) result }
{
    match o {
        Ending::Found { len, visited: n } => visited(line.text(b"allowed, "), n)
            .text(b", order")
            .list(&answer[..len]),
        Ending::NoneLeft { visited: n } => visited(line.text(b"forbidden, "), n),
        Ending::Spent { len: _, visited: n } => visited(line.text(b"undecided, "), n),
    }
}

fn replied(line: Line, reply: Result<Ending, Refusal>, answer: &[u8]) -> Line
    requires { length_of reply ≤ length answer.now }
    ensures { AddsTo line (reply_text (reply_of reply answer.now)) result }
{
    match reply {
        Ok(o) => ended(line, o, answer),
        Err(r) => line.item(b"refused ", words::number(r)),
    }
}

// The line of the test that begins at block k, before it ends. No order is longer than the answer buffer.
fn decided(rt: &HostRuntime, k: u64, test: &[u8], answer: &mut [u8]) -> Line
    requires { answer.old ≡ no_answer }
    ensures { kept result ≡ suite_line k test.now }
{
    let reply = bench::search(test, b"", answer, ALLOWANCE);
    let begun = Line::output(rt).text(b"block ").number(k).text(b": ");
    replied(begun, reply, answer)
}

// The line of the first test of the bytes held.
fn first_line(rt: &HostRuntime, k: u64, held: &[u8]) -> Line
    ensures { kept result ≡ suite_line k (test_of held.now 0) }
{
    let mut answer = [0u8; EditionTwo::EVENTS];
    decided(rt, k, suite_walk::test(held, 0), &mut answer)
}

// Writes it; an error if it was lost.
fn line(rt: &HostRuntime, k: u64, held: &[u8]) -> io::Result<()> {
    first_line(rt, k, held).end()
}

// What a turn did. Of a failure standard error was told.
#[derive(Clone, Copy)]
pub enum Effect {
    Passed(Step),
    NoMore,
    Failed,
}

// The test that begins at block k.
fn turn(rt: &HostRuntime, k: u64, buffer: &mut [u8], held: usize) -> Effect
    requires held_in_bounds { held ≤ length buffer.old }
    requires two_in_bounds { test_length two ≤ length buffer.old }
    ensures { Turned held buffer.old buffer.new result }
{
    match held::gather(rt, buffer, held) {
        Err(e) => {
            console::input_failed(rt, b"suite", e);
            Effect::Failed
        }
        Ok(0) => Effect::NoMore,
        Ok(n) => match line(rt, k, &buffer[..n]) {
            Err(e) => {
                console::output_failed(rt, b"suite", e);
                Effect::Failed
            }
            Ok(()) => Effect::Passed(held::pass(buffer, n)),
        },
    }
}

// After n tests.
fn closing(rt: &HostRuntime, n: u64) -> Line
    ensures { kept result ≡ closing_line n }
{
    Line::output(rt).number(n).text(b" blocks")
}

fn last(rt: &HostRuntime, n: u64) {
    if let Err(e) = closing(rt, n).end() {
        console::output_failed(rt, b"suite", e);
    }
}

// The bound makes the loop end for the proof: nothing says that input does.
fn turns(rt: &HostRuntime, buffer: &mut [u8])
    requires { test_length two ≤ length buffer.old }
{
    let mut held: usize = 0;
    let mut block: u64 = 0;
    for tests in 0..MOST_TESTS {
        match turn(rt, block, buffer, held) {
            Effect::Passed(step) => {
                held = step.held;
                block += step.blocks as u64;
            }
            Effect::NoMore => return last(rt, tests),
            Effect::Failed => return,
        }
    }
    last(rt, MOST_TESTS);
}

fn suite(rt: &HostRuntime) {
    let mut buffer = [0u8; EditionTwo::TEST];
    turns(rt, &mut buffer);
}

fn usage(rt: &HostRuntime) {
    let printed = console::print(
        rt,
        b"\
suite: whether the RISC-V memory model allows the stated outcome of each of many tests

    suite <SUITE

SUITE is any number of tests, each a block of 512 bytes, or three blocks in edition 2. Each test gets a line as soon as it
is decided, with the number of its first block, blocks being numbered from 0: 'allowed' with the first global memory order
that gives the outcome, by event numbers; 'forbidden'; 'undecided', if 1,000,000 visited prefixes were not enough; or
'refused' with the number of the refusal, and then the next block begins a test. The last line has the number of tests: it
is missing if reading or writing failed, which standard error then says.
",
    );
    if let Err(e) = printed {
        console::output_failed(rt, b"suite", e);
    }
}

fn main(rt: HostRuntime) {
    match console::asked(&rt) {
        Command::Run => suite(&rt),
        Command::Help => usage(&rt),
        Command::Unknown => console::unknown_argument(&rt, b"suite"),
    }
}
