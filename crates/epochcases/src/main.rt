// Runs the epoch program on many inputs: a case is a length (2 bytes) and so many bytes of input; after each case's output a line "--" is printed.
#![tactic(auto)]

use config::Config;
use std::io;
use std::io::{Input, Print};

fn main(rt: HostRuntime) -> io::Result<()> {
    show::each_turn(&rt, take_turn)
}

// One case; false where there is none.
fn take_turn<R: Input + Print>(rt: &R) -> io::Result<bool> {
    let Some(long) = show::read_array(rt)? else {
        return Ok(false);
    };
    take_input(rt, u16::from_be_bytes(long))?;
    rt.write_all(b"--\n")?;
    Ok(true)
}

// The next n bytes are an input of their own.
fn take_input<R: Input + Print>(rt: &R, n: u16) -> io::Result<()> {
    let mut run = epochrun::begin([0u8; Config::FRAME]);
    for _ in 0..n {
        let mut byte = [0u8; 1];
        show::read_full(rt, &mut byte)?;
        run = epochrun::feed(rt, run, byte[0])?;
    }
    epochrun::end(rt, run)
}
