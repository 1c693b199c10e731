// Reading standard input and printing, for the programs.
#![tactic(auto)]

mod arguments;
mod failed;
mod line;
mod rows;
mod stdin;

ghost use Rattle.std.specs.Prelude.{◌≡◌, take, drop};

pub use arguments::{Command, asked, unknown_argument};
pub use line::{File, Line};
pub use rows::row;
use std::io;
pub use stdin::{byte, byte_or_zero, fill, fill_to, read, word};

// Prints a text; an error if it was lost.
pub fn print(rt: &HostRuntime, text: &[u8]) -> io::Result<()> {
    rt.write_all(text)
}

// Says on standard error that a read failed, and why.
pub fn input_failed(rt: &HostRuntime, program: &[u8], e: io::Error) {
    failed::say(rt, program, b": standard input: ", e);
}

// Says on standard error that output was lost, and why.
pub fn output_failed(rt: &HostRuntime, program: &[u8], e: io::Error) {
    failed::say(rt, program, b": standard output: ", e);
}

// The first n bytes, as far as there are so many.
pub fn front(bytes: &[u8], n: usize) -> &[u8]
    ensures { result.now ≡ take n bytes.now }
{
    bytes.get(..n).unwrap_or(bytes)
}

// What stands past the first n bytes.
pub fn past(bytes: &[u8], n: usize) -> &[u8]
    ensures { result.now ≡ drop n bytes.now }
{
    bytes.get(n..).unwrap_or_default()
}
