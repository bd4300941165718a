// Reads a script of calls from standard input, makes them on one node, one sender and one contract, and prints a line for each;
// docs/REPLAY.md describes records and lines.
#![tactic(auto)]

mod changes;
mod contract_calls;
mod lines;
mod node_calls;
mod node_image;
mod sender_calls;

use image::memory;
use image::memory::{Buffer, Memory};
use std::io;
use std::io::{Input, Print};

// The bytes before those of a record: its letter and its length.
const HEAD: usize = 5;

// How long the buffer of a record is: a longer record ends the run.
const RECORD: usize = 65536;

fn main(rt: HostRuntime) -> io::Result<()> {
    let mut memory = Memory::new();
    for _ in 0..u64::MAX {
        if !take_turn(&rt, &mut memory)? {
            break;
        }
    }
    Ok(())
}

// One record; false where the run ends, as it does where the input does. An error, here and in what this calls, is that of reading or
// printing: `memory` may then hold the record's changes in part, and `main` ends with it.
fn take_turn<R: Input + Print>(rt: &R, memory: &mut Memory) -> io::Result<bool> {
    let mut head = [0u8; HEAD];
    if show::read_full(rt, &mut head)? < HEAD {
        return Ok(false);
    }
    let n = wire::read::<u32>(&head, 1) as usize;
    if RECORD < n {
        return Ok(false);
    }
    let mut record = [0u8; RECORD];
    let said = &mut record[..n];
    if show::read_full(rt, said)? < n {
        return Ok(false);
    }
    obey(rt, memory, head[0], said)
}

// By the letter: a buffer is set, an image is set, or a call is made. False where the letter is none, or the record is not as long as the
// letter's.
fn obey<R: Print>(rt: &R, memory: &mut Memory, letter: u8, said: &[u8]) -> io::Result<bool> {
    match letter {
        b'o' | b'k' | b'g' | b'w' => Ok(memory.fill(Buffer::from(letter), said)),
        b'n' => Ok(memory.put(memory::NODE_AT, image::NODE, said)),
        b's' => Ok(memory.put(memory::SENDER_AT, image::SENDER, said)),
        b'c' => Ok(memory.put(memory::CONTRACT_AT, image::CONTRACT, said)),
        b'F' => node_calls::fresh(rt, memory, said),
        b'R' => node_calls::restore(rt, memory, said),
        b'S' => node_calls::start(rt, memory, said),
        b'D' => node_calls::deliver(rt, memory, said),
        b'T' => node_calls::timer(rt, memory, said),
        b'f' => sender_calls::fresh(rt, memory, said),
        b'X' => sender_calls::transmit(rt, memory, said),
        b'O' => sender_calls::timeout(rt, memory, said),
        b'm' => contract_calls::fresh(rt, memory, said),
        b'B' => contract_calls::submit(rt, memory, said),
        b'P' => contract_calls::deposit(rt, memory, said),
        b'W' => contract_calls::withdraw(rt, memory, said),
        _ => Ok(false),
    }
}
