// Reads a stream of frames (a length of two bytes, then that many bytes) and prints what reading each gives.
#![tactic(auto)]

// What reading frame k gives.
fn line(rt: &HostRuntime, k: u64, s: &[u8]) {
    let begun = calls::begin(rt, k);
    let said = match block::read(s) {
        Ok(t) => table_line::fields(begun, &t),
        Err(r) => words::refused(begun, r),
    };
    let _ = said.end();
}

// One frame; none at the end of the input.
fn turn(rt: &HostRuntime, k: u64) -> Option<()> {
    let low = console::byte(rt)?;
    let n = u16::from_le_bytes([low, console::byte_or_zero(rt)]);
    let mut buffer = [0u8; calls::TEST];
    let came = console::read(rt, &mut buffer, usize::from(n));
    line(rt, k, console::front(&buffer, came));
    Some(())
}

fn main(rt: HostRuntime) {
    for k in 0..u64::MAX {
        if turn(&rt, k).is_none() {
            return;
        }
    }
}
