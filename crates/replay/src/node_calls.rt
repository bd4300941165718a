// The calls of a node; each answers false where the record is not as long as its letter's.
use crate::{changes, lines, node_image};
use config::Saved;
use image::memory;
use image::memory::{Buffer, Memory};
use node::{Arrival, Fired, Made, NoTimer, Node, Outcome};
use std::io;
use std::io::Print;

// The bytes of each record; of a delivery, those before its frame.
const RESTORE: usize = image::CONFIG + 8;

const START: usize = 16;

const DELIVERY: usize = 33 + image::COMMIT;

const TIMER: usize = 17;

pub fn fresh<R: Print>(rt: &R, memory: &mut Memory, said: &[u8]) -> io::Result<bool> {
    if said.len() != image::CONFIG {
        return Ok(false);
    }
    made(rt, memory, 'F', Node::fresh(image::config_at(said, 0)))?;
    Ok(true)
}

pub fn restore<R: Print>(rt: &R, memory: &mut Memory, said: &[u8]) -> io::Result<bool> {
    if said.len() != RESTORE {
        return Ok(false);
    }
    let config = image::config_at(said, 0);
    let saved = Saved {
        epoch: wire::read::<u32>(said, image::CONFIG),
        highest: wire::read::<u32>(said, image::CONFIG + 4),
    };
    made(rt, memory, 'R', Node::restore(config, saved))?;
    Ok(true)
}

// A node that was made takes the place of the one before.
fn made<R: Print>(rt: &R, memory: &mut Memory, letter: char, made: Made) -> io::Result<()> {
    lines::begin(rt, letter, made.answer)?;
    settle(rt, memory, made.node)?;
    lines::end(rt)
}

pub fn start<R: Print>(rt: &R, memory: &mut Memory, said: &[u8]) -> io::Result<bool> {
    if said.len() != START {
        return Ok(false);
    }
    let mut outbox = [0u8; memory::OUTBOX_ROOM];
    let outbox = memory.copied(Buffer::Outbox, &mut outbox);
    let outcome = held(memory).start(
        wire::read::<u64>(said, 0),
        outbox,
        wire::read::<u64>(said, 8) as usize,
        memory.buffer(Buffer::Kept),
        memory.buffer(Buffer::Signatures),
    );
    came(rt, memory, 'S', outcome)?;
    changes::settle_buffer(rt, memory, Buffer::Outbox, outbox)?;
    lines::end(rt)?;
    Ok(true)
}

pub fn deliver<R: Print>(rt: &R, memory: &mut Memory, said: &[u8]) -> io::Result<bool> {
    if said.len() < DELIVERY {
        return Ok(false);
    }
    let mut outbox = [0u8; memory::OUTBOX_ROOM];
    let outbox = memory.copied(Buffer::Outbox, &mut outbox);
    let mut kept = [0u8; memory::KEPT_ROOM];
    let kept = memory.copied(Buffer::Kept, &mut kept);
    let mut signatures = [0u8; memory::SIGNATURES_ROOM];
    let signatures = memory.copied(Buffer::Signatures, &mut signatures);
    let arrival = Arrival {
        link: said[0],
        time: wire::read::<u64>(said, 1),
        observation: wire::read::<i64>(said, 9),
        commit: image::commit_at(said, 17),
        bits: wire::read::<u64>(said, 38),
        frame: &said[DELIVERY..],
    };
    let outcome = held(memory).deliver(
        arrival,
        outbox,
        wire::read::<u64>(said, 46) as usize,
        kept,
        signatures,
    );
    came(rt, memory, 'D', outcome)?;
    changes::settle_buffer(rt, memory, Buffer::Outbox, outbox)?;
    changes::settle_buffer(rt, memory, Buffer::Kept, kept)?;
    changes::settle_buffer(rt, memory, Buffer::Signatures, signatures)?;
    lines::end(rt)?;
    Ok(true)
}

pub fn timer<R: Print>(rt: &R, memory: &mut Memory, said: &[u8]) -> io::Result<bool> {
    if said.len() != TIMER {
        return Ok(false);
    }
    let time = wire::read::<u64>(said, 1);
    let at = wire::read::<u64>(said, 9) as usize;
    match Fired::try_from(said[0]) {
        Ok(fired) => fires(rt, memory, fired, time, at)?,
        Err(NoTimer) => unnamed(rt, memory, time, at)?,
    }
    Ok(true)
}

// A timer that is none of the four changes nothing, so the buffers are lent as they lie.
fn unnamed<R: Print>(rt: &R, memory: &mut Memory, time: u64, at: usize) -> io::Result<()> {
    let outcome = held(memory).unarmed(
        time,
        memory.buffer(Buffer::Outbox),
        at,
        memory.buffer(Buffer::Kept),
        memory.buffer(Buffer::Signatures),
    );
    came(rt, memory, 'T', outcome)?;
    lines::end(rt)
}

fn fires<R: Print>(
    rt: &R,
    memory: &mut Memory,
    fired: Fired,
    time: u64,
    at: usize,
) -> io::Result<()> {
    let mut outbox = [0u8; memory::OUTBOX_ROOM];
    let outbox = memory.copied(Buffer::Outbox, &mut outbox);
    let mut signatures = [0u8; memory::SIGNATURES_ROOM];
    let signatures = memory.copied(Buffer::Signatures, &mut signatures);
    let outcome = held(memory).timer(
        fired,
        time,
        outbox,
        at,
        memory.buffer(Buffer::Kept),
        signatures,
    );
    came(rt, memory, 'T', outcome)?;
    changes::settle_buffer(rt, memory, Buffer::Outbox, outbox)?;
    changes::settle_buffer(rt, memory, Buffer::Signatures, signatures)?;
    lines::end(rt)
}

// A node's answer and results, and the node.
fn came<R: Print>(rt: &R, memory: &mut Memory, letter: char, outcome: Outcome) -> io::Result<()> {
    lines::begin(rt, letter, outcome.answer)?;
    lines::outcome(rt, outcome)?;
    settle(rt, memory, outcome.node)
}

// The node that the script works on.
fn held(memory: &Memory) -> Node {
    node_image::node_at(&memory.bytes, memory::NODE_AT)
}

// The node takes the place of the one before.
fn settle<R: Print>(rt: &R, memory: &mut Memory, node: Node) -> io::Result<()> {
    let mut after = [0u8; image::NODE];
    node_image::put_node(&mut after, node);
    changes::settle(rt, memory, 'n', memory::NODE_AT, &after)
}
