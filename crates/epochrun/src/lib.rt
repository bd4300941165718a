// A run of the epoch program that prints to standard output: what the two programs over it share.
#![tactic(auto)]

ghost use Rattle.std.specs.Prelude.{◌≡◌, replicate, IfOk};
ghost use Rattle.config.specs.Limits.{frame_size};
ghost use Rattle.epochline.specs.Machine.{byte_turn, new_machine};
ghost use Rattle.epochrun.specs.Run.{machine_of};

use config::Config;
use epochline::Program;
use std::io;
use std::io::Print;

// A run of the program, with the buffers that it lends to the library.
#[derive(Clone, Copy)]
pub struct Run {
    pub outbox: [u8; Config::FRAME],
    pub kept: [u8; Config::KEPT],
    pub signatures: [u8; Config::SIGNATURES],
    pub program: Program,
}

// A run that has read nothing, with the frame buffer that the program has made: zero bytes.
pub fn begin(outbox: [u8; Config::FRAME]) -> Run
    requires { outbox ≡ replicate frame_size 0 }
    ensures { machine_of result ≡ new_machine }
{
    Run {
        outbox,
        kept: [0u8; Config::KEPT],
        signatures: [0u8; Config::SIGNATURES],
        program: Program::new(),
    }
}

// One byte of the input. An error is that of printing what the byte gives: there is then no run to go on with, and nothing else was lent.
pub fn feed<R: Print>(rt: &R, run: Run, byte: u8) -> io::Result<Run>
    ensures { IfOk result (λ r. machine_of r ≡ (byte_turn (machine_of run) byte).machine_after) }
{
    let Run {
        mut outbox,
        mut kept,
        mut signatures,
        program,
    } = run;
    let mut out = [0u8; Program::PRINTED];
    let fed = program.feed(byte, &mut outbox, &mut kept, &mut signatures, &mut out);
    print(rt, &out, fed.written)?;
    Ok(Run {
        outbox,
        kept,
        signatures,
        program: fed.program,
    })
}

// The end of the input. An error is that of printing.
pub fn end<R: Print>(rt: &R, run: Run) -> io::Result<()> {
    let Run {
        mut outbox,
        mut kept,
        mut signatures,
        program,
    } = run;
    let mut out = [0u8; Program::PRINTED];
    let fed = program.end(&mut outbox, &mut kept, &mut signatures, &mut out);
    print(rt, &out, fed.written)
}

fn print<R: Print>(rt: &R, out: &[u8; Program::PRINTED], written: usize) -> io::Result<()> {
    match out.get(..written) {
        Some(printed) => rt.write_all(printed),
        None => Ok(()),
    }
}
