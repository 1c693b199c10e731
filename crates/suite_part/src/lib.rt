// The blocks of a suite, as parts of the caller's bytes.
#![tactic(auto)]

ghost use Rattle.std.specs.Prelude.{◌≡◌};
ghost use Rattle.suite_part.specs.Part.{block_of, block_count};

use edition::EditionOne;

// How many blocks the suite has, a last part block too.
pub fn blocks(suite: &[u8]) -> usize
    ensures { result ≡ block_count suite.now }
{
    suite.len().div_ceil(EditionOne::BLOCK)
}

// Block `k`: empty where the suite has no block `k`. The test comes first, so that the product can't wrap.
pub fn block(suite: &[u8], k: usize) -> &[u8]
    ensures { result.now ≡ block_of suite.now k }
{
    if blocks(suite) <= k {
        return &suite[..0];
    }
    let from = EditionOne::BLOCK * k;
    let to = suite.len().min(from + EditionOne::BLOCK);
    &suite[from..to]
}
