// Walks all witnesses of one test of standard input: a line each, and their number at the end.
#![tactic(auto)]

use console::{Command, Line};
use edition::EditionTwo;
use std::io::Result;
use witness_walk::Ending;

// How many prefixes a call may visit. A progress line is written when they are spent.
const ALLOWANCE: u64 = 1_000_000;

// Longer than any test, so that input that is too long is refused.
const INPUT: usize = EditionTwo::TEST + 1;

// No order and no returned list is longer.
const LIST: usize = EditionTwo::EVENTS;

// Where a walk is: the prefix that its next call starts from, and how many witnesses and prefixes there were.
#[derive(Clone, Copy)]
struct Walk {
    prefix: [u8; LIST],
    len: usize,
    witnesses: u64,
    visited: u64,
}

fn usage(rt: &HostRuntime) {
    let printed = console::print(
        rt,
        b"\
witnesses: all global memory orders that give the stated outcome of a test

    witnesses <TEST

TEST is one test: a block of 512 bytes, or three of them in edition 2. Each witness gets a line, in ascending order: its
events by their numbers, and the event that each reader reads from, or 'initial' for the initial value. The last line has
the number of witnesses and that of the prefixes visited: it is missing if reading or writing failed, which standard error
then says. During long walks lines on standard error say how far the walk is.
",
    );
    if let Err(e) = printed {
        console::output_failed(rt, b"witnesses", e);
    }
}

// Reader e returns from event w, or from the initial value.
fn from(line: Line, e: usize, w: u8) -> Line {
    let begun = line.text(b"; ").number(e as u64).text(b" reads from ");
    if w == reads_from::INITIALLY {
        begun.text(b"initial")
    } else {
        begun.number(u64::from(w))
    }
}

fn returned(line: Line, list: &[u8; LIST]) -> Line {
    let mut filled = line;
    for (e, w) in list.iter().enumerate() {
        if *w != reads_from::NOTHING {
            filled = from(filled, e, *w);
        }
    }
    filled
}

fn witness(rt: &HostRuntime, test: &[u8], walk: &Walk) -> Result<()> {
    let order = console::front(&walk.prefix, walk.len);
    let mut list = [reads_from::NOTHING; LIST];
    let _ = bench::returns(test, order, &mut list);
    let begun = Line::output(rt)
        .text(b"witness ")
        .number(walk.witnesses)
        .text(b": order")
        .list(order);
    returned(begun, &list).end()
}

fn progress(rt: &HostRuntime, walk: &Walk) {
    let _ = Line::error(rt)
        .number(walk.visited)
        .text(b" visited, ")
        .number(walk.witnesses)
        .text(b" witnesses so far, at prefix")
        .list(console::front(&walk.prefix, walk.len))
        .end();
}

fn last(rt: &HostRuntime, witnesses: u64, visited: u64) -> Result<()> {
    let begun = match witnesses {
        0 => Line::output(rt).text(b"no witness: forbidden"),
        1 => Line::output(rt).text(b"1 witness"),
        n => Line::output(rt).number(n).text(b" witnesses"),
    };
    begun.text(b", ").number(visited).text(b" visited").end()
}

// After a call that answered, the line of its answer: where the walk then is, none if it has ended; an error if a line was lost.
// No count gets to the bound.
fn answered(
    rt: &HostRuntime,
    test: &[u8],
    walk: Walk,
    ending: Ending,
    answer: [u8; LIST],
) -> Result<Option<Walk>> {
    match ending {
        Ending::Found { len, visited } => {
            let next = Walk {
                prefix: answer,
                len,
                witnesses: walk.witnesses.saturating_add(1),
                visited: walk.visited.saturating_add(visited),
            };
            witness(rt, test, &next)?;
            Ok(Some(next))
        }
        Ending::NoneLeft { visited } => {
            last(rt, walk.witnesses, walk.visited.saturating_add(visited))?;
            Ok(None)
        }
        Ending::Spent { len, visited } => {
            let next = Walk {
                prefix: answer,
                len,
                visited: walk.visited.saturating_add(visited),
                ..walk
            };
            progress(rt, &next);
            Ok(Some(next))
        }
    }
}

// The next call of the walk, in the same way.
fn call(rt: &HostRuntime, test: &[u8], walk: Walk) -> Result<Option<Walk>> {
    let start = console::front(&walk.prefix, walk.len);
    let mut answer = [0u8; LIST];
    match bench::search(test, start, &mut answer, ALLOWANCE) {
        Ok(o) => answered(rt, test, walk, o, answer),
        Err(r) => {
            words::explained(Line::output(rt), r).end()?;
            Ok(None)
        }
    }
}

// An error if a line was lost. The bound makes the loop end for the proof.
fn walk_all(rt: &HostRuntime, test: &[u8]) -> Result<()> {
    let mut walk = Walk {
        prefix: [0; LIST],
        len: 0,
        witnesses: 0,
        visited: 0,
    };
    for calls in 0..u64::MAX {
        match call(rt, test, walk)? {
            Some(next) => walk = next,
            None => break,
        }
    }
    Ok(())
}

fn witnesses(rt: &HostRuntime) {
    let mut buffer = [0u8; INPUT];
    match console::fill(rt, &mut buffer) {
        Err(e) => console::input_failed(rt, b"witnesses", e),
        Ok(0) => usage(rt),
        Ok(n) => {
            if let Err(e) = walk_all(rt, console::front(&buffer, n)) {
                console::output_failed(rt, b"witnesses", e);
            }
        }
    }
}

fn main(rt: HostRuntime) {
    match console::asked(&rt) {
        Command::Run => witnesses(&rt),
        Command::Help => usage(&rt),
        Command::Unknown => console::unknown_argument(&rt, b"witnesses"),
    }
}
