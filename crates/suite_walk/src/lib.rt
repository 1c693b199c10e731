// The tests of a suite, of both editions: where each begins, and where the next one does.
#![tactic(auto)]

ghost use Rattle.std.specs.Prelude.{◌≤◌, ◌≡◌, length};
ghost use Rattle.edition.specs.Limits.{block_length};
ghost use Rattle.suite_walk.specs.Tests.{begins_two, test_of, test_length_at, good_two, next_block};

use decode::At;
use edition::{EditionOne, EditionTwo};

// Whether an edition 2 test begins with this block. The edition comes first, so that no other block is summed up for it.
pub fn begins_two(first: &[u8]) -> bool
    requires { block_length ≤ length first.now }
    ensures { result ≡ begins_two first.now }
{
    if first[At::EDITION] != EditionTwo::NUMBER {
        return false;
    }
    !block::check_wrong(first) & !block::marker_wrong(first)
}

// The test that begins at block `k`: empty where the suite has no block `k`, and what is left where it is cut.
pub fn test(suite: &[u8], k: usize) -> &[u8]
    ensures { result.now ≡ test_of suite.now k }
{
    let first = suite_part::block(suite, k);
    if first.len() < EditionOne::BLOCK {
        return first;
    }
    if !begins_two(first) {
        return first;
    }
    let from = EditionOne::BLOCK * k;
    if suite.len() - from < EditionTwo::TEST {
        return &suite[from..];
    }
    &suite[from..from + EditionTwo::TEST]
}

// How many bytes it has.
pub fn test_length(suite: &[u8], k: usize) -> usize
    ensures { result ≡ test_length_at suite.now k }
{
    test(suite, k).len()
}

// Whether a good edition 2 test begins at block `k`. No other test has as many bytes.
fn good_two(suite: &[u8], k: usize) -> bool
    ensures { result ≡ good_two suite.now k }
{
    let bytes = test(suite, k);
    if bytes.len() != EditionTwo::TEST {
        return false;
    }
    block::read(bytes).is_ok()
}

// The block where the test after that at block `k` begins; `k` itself where the suite has no block `k`.
pub fn next(suite: &[u8], k: usize) -> usize
    ensures { result ≡ next_block suite.now k }
{
    if suite_part::blocks(suite) <= k {
        return k;
    }
    if good_two(suite, k) {
        k + EditionTwo::BLOCKS
    } else {
        k + 1
    }
}
