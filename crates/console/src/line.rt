// A line that is put together first, so that it is written at once.
ghost use Rattle.std.specs.Prelude.{◌++◌, ◌≡◌, ◌≤◌, length, take};
ghost use Rattle.console.specs.Lines.{AddsTo};
ghost use Rattle.console.specs.Texts.{ascii, decimal, digits_of, spaced};

use std::io::{Error, Print, Result, Stderr, Stdout};

// How many bytes are kept; of a longer line these are written as soon as they are full. Each refusal with its sentence has room.
pub const ROOM: usize = 512;

// What a line is written to.
#[derive(Clone, Copy)]
pub enum File {
    Output(Stdout),
    Error(Stderr),
}

// The first `len` bytes are kept, and are to be written to `file`. Once a part of a line was lost, nothing more of it is
// written, so that the error stays that of the loss.
#[derive(Drop)]
pub struct Line {
    pub file: File,
    pub bytes: [u8; ROOM],
    pub len: usize,
    pub lost: Option<Error>,
}

// A number of 64 bits has no more.
const DIGITS: usize = 20;

// Writes the digits of n, as far as k go, to the front of the buffer; answers how many.
fn digits_of(k: usize, n: u64, digits: &mut [u8]) -> usize
    requires { k ≤ length digits.old }
    ensures few { result ≤ k }
    ensures same_length { length digits.new ≡ length digits.old }
    ensures value { take result digits.new ≡ digits_of k n }
{
    if k == 0 {
        0
    } else if n < 10 {
        digits[0] = b'0' + n as u8;
        1
    } else {
        let front = digits_of(k - 1, n / 10, digits);
        digits[front] = b'0' + (n % 10) as u8;
        front + 1
    }
}

impl Line {
    fn empty(file: File) -> Line
        ensures { result.len ≡ 0 }
    {
        Line {
            file,
            bytes: [0; ROOM],
            len: 0,
            lost: None,
        }
    }

    // For standard output.
    pub fn output(rt: &HostRuntime) -> Line
        ensures { result.len ≡ 0 }
    {
        Line::empty(File::Output(rt.stdout()))
    }

    // For standard error.
    pub fn error(rt: &HostRuntime) -> Line {
        Line::empty(File::Error(rt.stderr()))
    }

    // An error if a part of the line was lost.
    fn write(&self) -> Result<()> {
        if let Some(e) = self.lost {
            return Err(e);
        }
        let kept = super::front(&self.bytes, self.len);
        match self.file {
            File::Output(file) => file.write_all(kept),
            File::Error(file) => file.write_all(kept),
        }
    }

    pub fn text(mut self, text: &[u8]) -> Line
        ensures { AddsTo self text.now result }
    {
        for b in text {
            if ROOM <= self.len {
                self.lost = self.write().err();
                self.len = 0;
            }
            self.bytes[self.len] = *b;
            self.len += 1;
        }
        self
    }

    pub fn number(self, n: u64) -> Line
        ensures { AddsTo self (decimal n) result }
    {
        let mut digits = [0u8; DIGITS];
        let k = digits_of(DIGITS, n, &mut digits);
        self.text(&digits[..k])
    }

    // A text and the number of an event, a hart, a location or a rule.
    pub fn item(self, text: &[u8], n: u8) -> Line
        ensures { AddsTo self (text.now ++ decimal n) result }
    {
        self.text(text).number(u64::from(n))
    }

    // A text and a value of a location.
    pub fn value(self, text: &[u8], v: u16) -> Line {
        self.text(text).number(u64::from(v))
    }

    pub fn spaced(self, n: u64) -> Line
        ensures { AddsTo self (ascii " " ++ decimal n) result }
    {
        self.text(b" ").number(n)
    }

    // A space and a number for each byte.
    pub fn list(mut self, bytes: &[u8]) -> Line
        ensures { AddsTo self (spaced bytes.now) result }
    {
        for b in bytes {
            self = self.spaced(u64::from(*b));
        }
        self
    }

    // Ends the line and writes it; an error if a part of it was lost.
    pub fn end(self) -> Result<()> {
        self.text(b"\n").write()
    }
}
