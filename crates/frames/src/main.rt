// Reads frame cases from standard input and prints a line for each: the code that checking a frame gives and what the frame says, or
// the outbox after a frame was written. A case is its length (2 bytes) and so many bytes; `reference/frames.py` describes them.
#![tactic(auto)]

mod reading;
mod writing;

use std::io;
use std::io::{Input, Print};

// How long the buffer of a case is: there is room for every length that two bytes can say.
const CASE: usize = 65536;

fn main(rt: HostRuntime) -> io::Result<()> {
    show::each_turn(&rt, take_turn)
}

// One case; false where the input has ended.
fn take_turn<R: Input + Print>(rt: &R) -> io::Result<bool> {
    let Some(long) = show::read_array(rt)? else {
        return Ok(false);
    };
    let n = usize::from(u16::from_be_bytes(long));
    let mut buffer = [0u8; CASE];
    let case = &mut buffer[..n];
    if show::read_full(rt, case)? < n {
        return Ok(false);
    }
    answer(rt, case)?;
    rt.write_all(b"\n")?;
    Ok(true)
}

// By the operation, its first byte; nothing where it is none.
fn answer<R: Print>(rt: &R, case: &[u8]) -> io::Result<()> {
    match case.first() {
        Some(b'R') => reading::read(rt, case),
        Some(b'W') => writing::write(rt, case),
        _ => Ok(()),
    }
}
