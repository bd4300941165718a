// The epoch program: reads its input to the end and prints, after each line, the code, the epoch, the leader and the highest number sent.
#![tactic(auto)]

use config::Config;
use std::io;

fn main(rt: HostRuntime) -> io::Result<()> {
    let mut run = epochrun::begin([0u8; Config::FRAME]);
    for _ in 0..u64::MAX {
        let Some(byte) = show::read_array::<_, 1>(&rt)? else {
            return epochrun::end(&rt, run);
        };
        run = epochrun::feed(&rt, run, byte[0])?;
    }
    Ok(())
}
