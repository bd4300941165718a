// Reads deviation cases from standard input, 20 bytes each (alpha, old price, new price, big-endian), and prints
// "yes" or "no" for each.
#![tactic(auto)]

use config::Config;
use std::io;
use std::io::{Input, Print};

const CASE: usize = 20;

fn main(rt: HostRuntime) -> io::Result<()> {
    show::each_turn(&rt, take_turn)
}

// One case; false where the input has ended.
fn take_turn<R: Input + Print>(rt: &R) -> io::Result<bool> {
    let Some(case) = show::read_array(rt)? else {
        return Ok(false);
    };
    if deviates(&case) {
        rt.write_all(b"yes\n")?;
    } else {
        rt.write_all(b"no\n")?;
    }
    Ok(true)
}

fn deviates(case: &[u8; CASE]) -> bool {
    let alpha = wire::read::<u32>(case, 0);
    let old = wire::read::<i64>(case, 4);
    let new = wire::read::<i64>(case, 12);
    let schedule = [4u8, 0, 0, 0, 0, 0, 0, 0];
    let config = Config::new(0, 4, 1, 1, 1, alpha, 0, 0, 1, schedule);
    price::deviates(config, old, new)
}
