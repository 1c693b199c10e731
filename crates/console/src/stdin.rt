// Standard input. A read that fails isn't the end of the input.
ghost use Rattle.std.specs.Prelude.{◌≤◌, length};
ghost use Rattle.console.specs.Input.{Holds};

use super::failed;
use std::io::{Read, Result};

// Reads behind the bytes held at the front of the buffer until there are `most`, the input ends or a read fails. Answers how many
// are held then.
pub fn fill_to(rt: &HostRuntime, buffer: &mut [u8], held: usize, most: usize) -> Result<usize>
    requires held_in_bounds { held ≤ length buffer.old }
    requires most_in_bounds { most ≤ length buffer.old }
    ensures { Holds held buffer.old buffer.new result }
{
    let mut n = held;
    while n < most {
        let more = rt.stdin().read(&mut buffer[n..most])?;
        if more == 0 {
            break;
        }
        n += more;
    }
    Ok(n)
}

// Reads to the front of the buffer until it is full, the input ends or a read fails.
pub fn fill(rt: &HostRuntime, buffer: &mut [u8]) -> Result<usize> {
    let most = buffer.len();
    fill_to(rt, buffer, 0, most)
}

// Reads n bytes to the front of the buffer, as far as it and the input go; answers how many: none if a read failed, which
// standard error then says.
pub fn read(rt: &HostRuntime, buffer: &mut [u8], n: usize) -> usize {
    let most = n.min(buffer.len());
    match fill_to(rt, buffer, 0, most) {
        Ok(n) => n,
        Err(e) => {
            failed::say(rt, b"", b"standard input: ", e);
            0
        }
    }
}

// A byte of the input; none at its end.
pub fn byte(rt: &HostRuntime) -> Option<u8> {
    let mut one = [0u8; 1];
    let n = read(rt, &mut one, 1);
    super::front(&one, n).first().copied()
}

// The next byte, 0 past the end of the input.
pub fn byte_or_zero(rt: &HostRuntime) -> u8 {
    byte(rt).unwrap_or(0)
}

// The next two bytes, the lower first.
pub fn word(rt: &HostRuntime) -> u16 {
    let low = byte_or_zero(rt);
    let high = byte_or_zero(rt);
    u16::from_le_bytes([low, high])
}
