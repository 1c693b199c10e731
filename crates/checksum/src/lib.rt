// The check of a block, which stands behind the bytes that it covers. It is worked out by additions only, in four lanes side by
// side: the compiler keeps the four in one wide register.
#![tactic(auto)]

ghost use Rattle.std.specs.Prelude.{◌+◌, ◌*◌, ◌≤◌, ◌≡◌, length, take, drop};
ghost use Rattle.checksum.specs.Checksum.{covered, weighted_from, checksum};
ghost use Rattle.checksum.specs.Lanes.{lanes, largest, added, plain};

// How many bytes the check covers.
const COVERED: usize = 508;

// How many bytes stand in a row, each in a lane of its own. The covered bytes are whole rows.
const LANES: usize = 4;

// How many rows stand before the last one.
const ROWS: usize = COVERED / LANES - 1;

// The row of bytes that begins at `at`.
fn row(s: &[u8], at: usize) -> [u32; LANES]
    requires { at + lanes ≤ length s.now }
    ensures bytes { result ≡ take lanes (drop at s.now) }
    ensures small { plain result ≤ lanes * 255 }
{
    [
        u32::from(s[at]),
        u32::from(s[at + 1]),
        u32::from(s[at + 2]),
        u32::from(s[at + 3]),
    ]
}

// Two rows, added lane by lane.
fn add(a: [u32; LANES], b: [u32; LANES]) -> [u32; LANES]
    requires { plain a + plain b ≤ largest }
    ensures { result ≡ added a b }
{
    [a[0] + b[0], a[1] + b[1], a[2] + b[2], a[3] + b[3]]
}

// The sum of all lanes, as many times as there are lanes: four times, by doubling twice.
fn times_lanes(a: [u32; LANES]) -> u32
    requires { lanes * plain a ≤ largest }
    ensures { result ≡ lanes * plain a }
{
    let once = a[0] + a[1] + a[2] + a[3];
    let twice = once + once;
    twice + twice
}

// Each lane times its place, the first place being 1: the sum of the sums from each lane on.
fn by_place(a: [u32; LANES]) -> u32
    requires { lanes * plain a ≤ largest }
    ensures { result ≡ weighted_from 0 a }
{
    let from_3 = a[3];
    let from_2 = from_3 + a[2];
    let from_1 = from_2 + a[1];
    let from_0 = from_1 + a[0];
    from_3 + from_2 + from_1 + from_0
}

// The sum that the check has to be. `sums` has each lane's bytes from `at` on; `steps` has each of them as many times as it
// stands rows behind `at`.
pub fn checksum(s: &[u8]) -> u32
    requires { covered ≤ length s.now }
    ensures { result ≡ checksum s.now }
{
    let mut sums = row(s, LANES * ROWS);
    let mut steps = [0; LANES];
    for k in (0..ROWS).rev() {
        let more_steps = add(steps, sums);
        let more_sums = add(sums, row(s, LANES * k));
        steps = more_steps;
        sums = more_sums;
    }
    times_lanes(steps) + by_place(sums)
}
