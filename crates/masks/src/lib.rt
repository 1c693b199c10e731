// Masks of 32 bits: bit 0 is the lowest.
#![tactic(auto)]

ghost use Rattle.std.specs.Prelude.{◌<◌, ◌^◌, ◌≡◌, cond, eqb};
ghost use Rattle.std.specs.Int.Bits.{bit_and, bit_xor};
ghost use Rattle.std.specs.Int.Count.{count_trailing_zeros};
ghost use Rattle.masks.specs.Bit.{bit};
ghost use Rattle.masks.specs.Ones.{TakesLowest};
ghost use Rattle.masks.specs.Parts.{from, under, highest};
ghost use Rattle.std.specs.Iterator.{at_most};

// The mask of bit `e` alone.
pub fn one(e: u32) -> u32
    requires { e < 32 }
    ensures { result ≡ 2 ^ e }
{
    1 << e
}

// The mask of bit `e` alone if it passes, else the empty mask.
pub fn one_if(passes: bool, e: u8) -> u32
    requires { e < 32 }
    ensures { result ≡ cond passes (2 ^ e) 0 }
{
    if passes { one(e as u32) } else { 0 }
}

// The mask if it passes, else the empty mask.
pub fn mask_if(passes: bool, m: u32) -> u32
    ensures { result ≡ cond passes m 0 }
{
    if passes { m } else { 0 }
}

// Bit `k` of `m` is set.
pub fn has(m: u32, k: u32) -> bool
    requires { k < 32 }
    ensures { result ≡ bit m k }
{
    (m >> k) % 2 == 1
}

// The lowest bit that is set in `m`; 32 where none is.
pub fn lowest_set(m: u32) -> u32
    ensures { result ≡ count_trailing_zeros 32 m }
{
    u32::trailing_zeros(m)
}

// The highest bit of a mask.
const TOP_BIT: u32 = 31;

// The highest bit that is set in `m`.
pub fn highest_set(m: u32) -> u32
    requires { 0 < m }
    ensures { result ≡ highest m }
{
    TOP_BIT - u32::leading_zeros(m)
}

// The bits of `m` from bit `e` on.
pub fn from(m: u32, e: u32) -> u32
    requires { e < 32 }
    ensures { result ≡ from e m }
{
    (m >> e) << e
}

// The bits of `m` below bit `e`.
pub fn under(m: u32, e: u32) -> u32
    requires { e < 32 }
    ensures { result ≡ under e m }
{
    m ^ from(m, e)
}

// What is in `a` and not in `b`.
pub fn less(a: u32, b: u32) -> u32
    ensures { result ≡ bit_xor a (bit_and a b) }
{
    a ^ (a & b)
}

// Every bit of `a` is in `b`.
pub fn within(a: u32, b: u32) -> bool
    ensures { result ≡ eqb (bit_and a b) a }
{
    (a & b) == a
}

// The bits that are set in a mask, the lowest first.
#[derive(Clone, Copy)]
pub struct Ones(pub u32);

impl Iterator for Ones {
    type Item = u32;

    ghost next_gives = { TakesLowest };

    ghost remaining = { λ s. at_most s.0 };

    fn next(&mut self) -> Option<u32> {
        if self.0 == 0 {
            return None;
        }
        let e = lowest_set(self.0);
        self.0 ^= one(e);
        Some(e)
    }
}
