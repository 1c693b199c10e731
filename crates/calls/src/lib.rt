// The streams of calls that the test programs read: a tag, then what that call is given. And how its answer is printed.
#![tactic(auto)]

ghost use Rattle.std.specs.Prelude.{◌≤◌, length};

use console::Line;

// A call that lends the test or the suite of those after it.
pub const LEND: u8 = b'B';

// No test of a stream is longer.
pub const TEST: usize = 2048;

// Lists and answer buffers are shorter: their length is one byte.
pub const LIST: usize = 256;

// What an answer buffer holds before the call.
pub const PREFILL: u8 = 0xEE;

// What a program does with the calls of a stream.
pub trait Calls {
    // Answers call k on the bytes that were lent last; false if no call has this tag.
    fn call(&mut self, rt: &HostRuntime, tag: u8, k: u64, bytes: &[u8]) -> bool;

    // Other bytes were lent.
    fn lent(&mut self) {}
}

// Reads calls and has them answered, until the input ends or a tag isn't known. What they are lent stands in the buffer.
pub fn answer_all<C: Calls>(rt: &HostRuntime, buffer: &mut [u8], calls: &mut C) {
    let mut size: usize = 0;
    let mut k: u64 = 0;
    // The bound makes the loop end for the proof: nothing says that input does.
    for turns in 0..u64::MAX {
        let Some(tag) = console::byte(rt) else {
            return;
        };
        if tag == LEND {
            size = frame(rt, buffer);
            calls.lent();
        } else if calls.call(rt, tag, k, console::front(buffer, size)) {
            k += 1;
        } else {
            return;
        }
    }
}

pub fn length(rt: &HostRuntime) -> usize
    ensures { result ≤ 255 }
{
    usize::from(console::byte_or_zero(rt))
}

// Reads a list, a length and that many bytes: those that came.
pub fn list<'a>(rt: &HostRuntime, buffer: &'a mut [u8]) -> &'a [u8] {
    let n = length(rt);
    let came = console::read(rt, buffer, n);
    console::front(buffer, came)
}

// Reads the length of an answer buffer, and lends so much.
pub fn answer<'a>(rt: &HostRuntime, buffer: &'a mut [u8; LIST]) -> &'a mut [u8]
    ensures { length result.now ≤ 255 }
{
    let n = length(rt);
    &mut buffer[..n]
}

// Reads a test or a suite, a length of two bytes and that many bytes; answers how many came.
pub fn frame(rt: &HostRuntime, buffer: &mut [u8]) -> usize {
    let n = usize::from(console::word(rt));
    console::read(rt, buffer, n)
}

// A number of eight bytes, the lowest first.
pub fn number(rt: &HostRuntime) -> u64 {
    u64::from_le_bytes(std::array::from_fn(|_| console::byte_or_zero(rt)))
}

// Begins the line of call k.
pub fn begin(rt: &HostRuntime, k: u64) -> Line {
    Line::output(rt).number(k).text(b": ")
}

// Ends the line of a call that was lent an answer buffer: the whole of it, as it now is.
pub fn end(line: Line, answer: &[u8]) {
    let _ = line.text(b", buffer").list(answer).end();
}
