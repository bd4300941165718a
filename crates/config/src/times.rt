// Times, and the commits that carry one.
ghost use Rattle.std.specs.Prelude.{◌≡◌, ◌-◌};
ghost use Rattle.config.specs.Bounds.{good_time, paired, good_commit, no_commit};

use crate::{Commit, Config};

// Whether a clock can show this time.
pub fn good_time(time: u64) -> bool
    ensures { result ≡ good_time time }
{
    time <= Config::LAST_TIME
}

// How many milliseconds lie between two times; none where the second is behind the first.
pub fn between(from: u64, to: u64) -> u64
    ensures { result ≡ to - from }
{
    to.saturating_sub(from)
}

// Whether epoch and round are both 0 or neither.
pub fn paired(epoch: u32, round: u8) -> bool
    ensures { result ≡ paired epoch round }
{
    (epoch == 0) == (round == 0)
}

impl Commit {
    // Whether a contract can have this commit.
    pub fn good(self) -> bool
        ensures { result ≡ good_commit self }
    {
        paired(self.epoch, self.round) & good_time(self.time)
    }

    // Whether nothing has been committed.
    pub fn none(self) -> bool
        ensures { result ≡ no_commit self }
    {
        (self.epoch == 0) & (self.round == 0)
    }
}
