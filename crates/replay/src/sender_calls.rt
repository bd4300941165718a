// The calls of a sender; each answers false where the record is not as long as its letter's.
use crate::{changes, lines};
use image::memory;
use image::memory::{Buffer, Memory};
use sender::Sender;
use std::io;
use std::io::Print;

// The bytes of a record of a timeout, and of one of a transmission before its permutation.
const TIMEOUT: usize = 8 + image::COMMIT;

const TRANSMISSION: usize = TIMEOUT + 1;

pub fn fresh<R: Print>(rt: &R, memory: &mut Memory, said: &[u8]) -> io::Result<bool> {
    if said.len() != image::CONFIG {
        return Ok(false);
    }
    let made = Sender::fresh(image::config_at(said, 0));
    lines::begin(rt, 'f', made.answer)?;
    settle(rt, memory, made.sender)?;
    lines::end(rt)?;
    Ok(true)
}

// The permutation is as long as the record says, and the body follows.
pub fn transmit<R: Print>(rt: &R, memory: &mut Memory, said: &[u8]) -> io::Result<bool> {
    if said.len() < TRANSMISSION {
        return Ok(false);
    }
    let end = TRANSMISSION + usize::from(said[TIMEOUT]);
    if said.len() < end {
        return Ok(false);
    }
    let mut waiting = [0u8; memory::WAITING_ROOM];
    let waiting = memory.copied(Buffer::Waiting, &mut waiting);
    let queued = held(memory).transmit(
        &said[end..],
        wire::read::<u64>(said, 0),
        image::commit_at(said, 8),
        &said[TRANSMISSION..end],
        waiting,
    );
    lines::begin(rt, 'X', queued.answer)?;
    lines::transmit(rt, queued.transmit)?;
    settle(rt, memory, queued.sender)?;
    changes::settle_buffer(rt, memory, Buffer::Waiting, waiting)?;
    lines::end(rt)?;
    Ok(true)
}

pub fn timeout<R: Print>(rt: &R, memory: &mut Memory, said: &[u8]) -> io::Result<bool> {
    if said.len() != TIMEOUT {
        return Ok(false);
    }
    let released = held(memory).timeout(
        wire::read::<u64>(said, 0),
        image::commit_at(said, 8),
        memory.buffer(Buffer::Waiting),
    );
    lines::begin(rt, 'O', released.answer)?;
    lines::transmit(rt, released.transmit)?;
    lines::part(rt, released.handed)?;
    settle(rt, memory, released.sender)?;
    lines::end(rt)?;
    Ok(true)
}

// The sender that the script works on.
fn held(memory: &Memory) -> Sender {
    image::sender_at(&memory.bytes, memory::SENDER_AT)
}

// The sender takes the place of the one before.
fn settle<R: Print>(rt: &R, memory: &mut Memory, sender: Sender) -> io::Result<()> {
    let mut after = [0u8; image::SENDER];
    image::put_sender(&mut after, sender);
    changes::settle(rt, memory, 's', memory::SENDER_AT, &after)
}
