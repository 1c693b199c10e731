// The limits belong to the edition and are stated once; the functions hold them to the definitions.
#![tactic(auto)]

ghost use Rattle.std.specs.Prelude.{◌≡◌};
ghost use Rattle.edition.specs.Limits.{one, two, max_harts, max_locations, block_length, most_events, test_length};

#[derive(Clone, Copy)]
pub struct EditionOne;

impl EditionOne {
    pub const NUMBER: u8 = 1;

    pub const HARTS: usize = 4;

    pub const LOCATIONS: usize = 8;

    pub const EVENTS: usize = 16;

    // The bytes of a block. A test is one.
    pub const BLOCK: usize = 512;

    pub fn harts() -> usize
        ensures { result ≡ max_harts }
    {
        Self::HARTS
    }

    pub fn locations() -> usize
        ensures { result ≡ max_locations }
    {
        Self::LOCATIONS
    }

    pub fn events() -> usize
        ensures { result ≡ most_events one }
    {
        Self::EVENTS
    }

    pub fn block() -> usize
        ensures { result ≡ block_length }
    {
        Self::BLOCK
    }
}

// Harts, locations and the length of a block are those of edition 1.
#[derive(Clone, Copy)]
pub struct EditionTwo;

impl EditionTwo {
    pub const NUMBER: u8 = 2;

    pub const EVENTS: usize = 30;

    // The blocks of a test, and its bytes.
    pub const BLOCKS: usize = 3;

    pub const TEST: usize = Self::BLOCKS * EditionOne::BLOCK;

    pub fn events() -> usize
        ensures { result ≡ most_events two }
    {
        Self::EVENTS
    }

    pub fn test() -> usize
        ensures { result ≡ test_length two }
    {
        Self::TEST
    }
}
