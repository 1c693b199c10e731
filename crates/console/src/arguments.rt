// What a program's arguments ask for.
use super::Line;
use std::env::{Env, FillError};

// To run, where there is no argument; to say how it is used; or something that no program here knows.
#[derive(Clone, Copy)]
pub enum Command {
    Run,
    Help,
    Unknown,
}

// An argument that is longer is known to no program, and isn't shown.
const LONGEST: usize = 256;

pub fn asked(rt: &HostRuntime) -> Command {
    let mut word = [0u8; LONGEST];
    match rt.arg(1, &mut word) {
        Err(FillError::NotPresent) => Command::Run,
        Err(FillError::TooLong) => Command::Unknown,
        Ok(n) => match &word[..n] {
            b"--help" | b"-h" => Command::Help,
            _ => Command::Unknown,
        },
    }
}

// Says on standard error which argument isn't known.
pub fn unknown_argument(rt: &HostRuntime, program: &[u8]) {
    let mut word = [0u8; LONGEST];
    let n = rt.arg(1, &mut word).unwrap_or(0);
    let _ = Line::error(rt)
        .text(program)
        .text(b": unknown argument '")
        .text(&word[..n])
        .text(b"'; see ")
        .text(program)
        .text(b" --help")
        .end();
}
