// The check of a block in two forms, for the benchmark alone: by additions, as crate `checksum` works it out, and by weights,
// as it did before. Both make the same promise.
#![tactic(auto)]

ghost use Rattle.std.specs.Prelude.{◌+◌, ◌*◌, ◌≤◌, ◌<◌, ◌≡◌, length};
ghost use Rattle.checksum.specs.Checksum.{covered, checksum};

use edition::EditionOne;

// How many bytes the check covers.
const COVERED: usize = 508;

// Byte `b` at place `i`, with the place's weight. Small enough that all of them add up to a u32.
fn weighted(i: usize, b: u8) -> u32
    requires { i < covered }
    ensures product { result ≡ (i + 1) * b }
    ensures small { result ≤ covered * 255 }
{
    (i as u32 + 1) * u32::from(b)
}

fn by_weights(s: &[u8]) -> u32
    requires { covered ≤ length s.now }
    ensures { result ≡ checksum s.now }
{
    let mut sum: u32 = 0;
    for (i, b) in s[..COVERED].iter().enumerate() {
        sum += weighted(i, *b);
    }
    sum
}

#[unsafe(no_mangle)]
pub extern "C" fn check_by_weights(block: &[u8; EditionOne::BLOCK]) -> u32
    ensures { result ≡ checksum block.now }
{
    let s: &[u8] = block;
    by_weights(s)
}

#[unsafe(no_mangle)]
pub extern "C" fn check_by_additions(block: &[u8; EditionOne::BLOCK]) -> u32
    ensures { result ≡ checksum block.now }
{
    let s: &[u8] = block;
    checksum::checksum(s)
}
