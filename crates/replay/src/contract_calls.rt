// The calls of a contract; each answers false where the record is not as long as its letter's.
use crate::{changes, lines};
use contract::Contract;
use image::memory;
use image::memory::Memory;
use std::io;
use std::io::Print;

// The bytes of a record of a submission before its body.
const SUBMISSION: usize = 17;

pub fn fresh<R: Print>(rt: &R, memory: &mut Memory, said: &[u8]) -> io::Result<bool> {
    if said.len() != image::TERMS {
        return Ok(false);
    }
    let made = Contract::fresh(image::terms_at(said, 0));
    lines::begin(rt, 'm', made.answer)?;
    settle(rt, memory, made.contract)?;
    Ok(true)
}

pub fn submit<R: Print>(rt: &R, memory: &mut Memory, said: &[u8]) -> io::Result<bool> {
    if said.len() < SUBMISSION {
        return Ok(false);
    }
    let submitted = held(memory).submit(
        &said[SUBMISSION..],
        said[0],
        wire::read::<u64>(said, 1),
        wire::read::<u64>(said, 9),
    );
    lines::begin(rt, 'B', submitted.answer)?;
    settle(rt, memory, submitted.contract)?;
    Ok(true)
}

pub fn deposit<R: Print>(rt: &R, memory: &mut Memory, said: &[u8]) -> io::Result<bool> {
    if said.len() != 8 {
        return Ok(false);
    }
    let deposited = held(memory).deposit(wire::read::<u64>(said, 0));
    lines::begin(rt, 'P', deposited.answer)?;
    settle(rt, memory, deposited.contract)?;
    Ok(true)
}

pub fn withdraw<R: Print>(rt: &R, memory: &mut Memory, said: &[u8]) -> io::Result<bool> {
    let [member] = said else {
        return Ok(false);
    };
    let withdrawn = held(memory).withdraw(*member);
    lines::begin(rt, 'W', withdrawn.answer)?;
    show::number(rt, withdrawn.amount)?;
    settle(rt, memory, withdrawn.contract)?;
    Ok(true)
}

// The contract that the script works on.
fn held(memory: &Memory) -> Contract {
    image::contract_at(&memory.bytes, memory::CONTRACT_AT)
}

// The rest of a line: the contract takes the place of the one before.
fn settle<R: Print>(rt: &R, memory: &mut Memory, contract: Contract) -> io::Result<()> {
    let mut after = [0u8; image::CONTRACT];
    image::put_contract(&mut after, contract);
    changes::settle(rt, memory, 'c', memory::CONTRACT_AT, &after)?;
    lines::end(rt)
}
