// The refusals in words, once for all programs.
#![tactic(auto)]

ghost use Rattle.std.specs.Prelude.{◌≡◌};
ghost use Rattle.refusals.specs.Refusals.{refusal_of};
ghost use Rattle.words.specs.Numbers.{number_of};

use console::Line;
use refusals::Refusal;

// What refusal n means: row n of this table, whose rows from 1 on are those of docs/refusals.txt.
pub fn sentence(line: Line, n: u8) -> Line {
    let table = b"
the test is shorter than a block of 512 bytes, or isn't as long as those of its edition: 512 bytes in edition 1, 1,536 in edition 2; or the text is longer than 2,048 bytes
the check in bytes 508 to 511 of a block isn't the weighted sum of the bytes before it
the test doesn't begin with the marker RVT1 (52 56 54 31 hex)
the edition in byte 4 is neither 1 nor 2
the number of harts (1 to 4), locations (1 to 8) or events (1 to 16, in edition 2 and in a text to 30) or the model (0 or 1) is out of range, or a final value is stated of a location that isn't in the test
a byte that must be zero isn't: an unused byte, an initial value of a location that isn't in the test, a final value that isn't stated, or a record past the events
the record's kind, hart, location, flags or operation are out of range, or it has what its kind can't have: a value read on an event that doesn't read, a value written on one that doesn't write, a location or a mask on a fence, flags on a fence.tso, an operation on an event that isn't an AMO; or it has an operand without an operation, or a value written that isn't what the operation makes of the value read; or, in a text, it states a value read, or a value written by an AMO with an operation
the record's annotations don't go together: both acquires or both releases at once, a release without an acquire on a load or an LR, or an acquire without a release on a plain store or an SC
a dependency mask of the record is wrong: it names an event that isn't earlier on the same hart, or a plain store, or a fence; or it is a data mask on an event that doesn't write, or a control dependency that some later memory event of the hart lacks
the SC isn't paired: the nearest earlier LR or SC on its hart isn't an LR to the same location
the test has no memory event
the order doesn't have one entry for each memory event, or the returned list doesn't have one entry for each event; or the previous outcome has values, and not one for each event that reads and each location
the order doesn't name each memory event exactly once
the returned list is wrong: an event that doesn't read needs the entry 254, and one that reads needs 255 (the initial value) or an event that writes to its location
the search can't start there: the start isn't a clean prefix, a list of different memory events none of which stands without, or before, an event that the steady rules put before it; or, for the search that gives up early, a value is wrong before its last event
the answer buffer is too short: a search needs a byte for each memory event, a returned list a byte for each event, and an outcome a place for each event that reads and each location
the allowance is above 1,000,000,000
the suite has no block of that number
no legal text has this byte in this place, or the text ends too soon
a `not` or a bracket begins a ninth level here, and a condition has at most eight
a location of the test is touched by no memory event, and its final value isn't stated (in a text: the condition doesn't name it)
more than eight ordinary fences have all bits clear, and advice tries the sets of eight at most
the condition names an event that doesn't read, or a location that isn't in the test
the list of steps isn't a run of the machine, the machine doesn't take this step, or the test isn't of model 1
";
    line.text(console::row(table, n))
}

// Why rule n of preserved order puts the first of two events before the second.
pub fn rule(line: Line, n: u8) -> Line {
    let table = b"
the second writes to the location of the first
both read one location with no write to it between them, and they return from different writes
the second returns from the first, which is an AMO or an SC
there is a fence between them
the first has an acquire
the second has a release
both have an RCsc annotation
the first is the LR that is paired with the second, an SC
the second's address depends on the first
the second's data depends on the first
the second writes and has a control dependency on the first
the second returns from a write between them whose address or data depends on the first
the second writes, and the address of an event between them depends on the first
";
    line.text(console::row(table, n))
}

// A refusal's number, and its record where it names one.
pub fn refused(line: Line, r: Refusal) -> Line {
    let said = line.item(b"refused ", number(r));
    match r {
        Refusal::Line(_) => said,
        Refusal::Record(_, k) => said.item(b", record ", k.0),
    }
}

// The number of a text's refusal, and the place of its byte.
pub fn refused_at(line: Line, n: u8, place: usize) -> Line {
    line.item(b"refused ", n)
        .text(b", place ")
        .number(place as u64)
}

// The number of a refusal's line.
pub fn number(r: Refusal) -> u8
    ensures { result ≡ number_of (refusal_of r) }
{
    match r {
        Refusal::Line(n) => n,
        Refusal::Record(n, _) => n,
    }
}

// A refusal's number and record, and what it means.
pub fn explained(line: Line, r: Refusal) -> Line {
    sentence(refused(line, r).text(b": "), number(r))
}
