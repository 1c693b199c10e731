// The bytes that are held of standard input, at the front of a buffer: from the first block of the next test on.
ghost use Rattle.std.specs.Prelude.{◌-◌, ◌≤◌, ◌≡◌, length, take, drop};
ghost use Rattle.edition.specs.Limits.{two, test_length};
ghost use Rattle.console.specs.Input.{Holds};
ghost use Rattle.suite.specs.Held.{Passes};

use edition::{EditionOne, EditionTwo};
use std::io::Result;

// How many blocks the walk has moved by, and how many bytes are held then.
#[derive(Clone, Copy)]
pub struct Step {
    pub blocks: usize,
    pub held: usize,
}

// Reads on until a block is held, and three where an edition 2 test begins, as far as the input goes: an edition 1 test waits for
// no more than itself.
pub fn gather(rt: &HostRuntime, buffer: &mut [u8], held: usize) -> Result<usize>
    requires held_in_bounds { held ≤ length buffer.old }
    requires two_in_bounds { test_length two ≤ length buffer.old }
    ensures { Holds held buffer.old buffer.new result }
{
    let n = console::fill_to(rt, buffer, held, EditionOne::BLOCK)?;
    if EditionOne::BLOCK <= n && suite_walk::begins_two(&buffer[..EditionOne::BLOCK]) {
        console::fill_to(rt, buffer, n, EditionTwo::TEST)
    } else {
        Ok(n)
    }
}

// Moves the bytes held behind the first `past` to the front, and says how many they are.
fn move_down(buffer: &mut [u8], past: usize, held: usize) -> usize
    requires { held ≤ length buffer.old }
    ensures value { result ≡ held - past }
    ensures buffer_after { take result buffer.new ≡ drop past (take held buffer.old) }
{
    if held <= past {
        return 0;
    }
    buffer[..held].rotate_left(past);
    held - past
}

// Passes the first test of the bytes held.
pub fn pass(buffer: &mut [u8], held: usize) -> Step
    requires { held ≤ length buffer.old }
    ensures { Passes (take held buffer.old) buffer.new result }
{
    let blocks = suite_walk::next(&buffer[..held], 0);
    let left = move_down(buffer, EditionOne::BLOCK * blocks, held);
    Step { blocks, held: left }
}
