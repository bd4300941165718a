// The stage that holds a node's place in the permutation, and how long it waits.
ghost use Rattle.std.specs.Prelude.{◌≡◌, true, ◌+◌, ◌≤◌, length};
ghost use Rattle.config.specs.Limits.{longest_stage, most_stages};
ghost use Rattle.config.specs.Bounds.{good_config};
ghost use Rattle.sender.specs.Stage.{permutes, place_in, stage_for, waits, delay_of};

use crate::Sender;
use config::Config;

// Whether these are 1 to n, each once.
#[tactic(auto, using(crate::proofs::Stages::entries_bytes, crate::proofs::Stages::column_bytes), unfolding(crate::specs::Stage::permutes))]
pub(crate) fn permutes(n: u8, permutation: &[u8]) -> bool
    ensures { result ≡ permutes n permutation.now }
{
    let many = permutation.len();
    if many != n as usize {
        return false;
    }
    frame::members_in(permutation, 0, 1, many, n)
        & (quorum::first_repeat(permutation, 0, 1, many) == many)
}

impl Sender {
    // This node's place in a permutation.
    pub(crate) fn place_in(self, permutation: &[u8]) -> u8
        requires { (1 ≤ self.config.own) × (self.config.own ≤ length permutation.now) }
        ensures { result ≡ place_in self.config permutation.now }
    {
        let config = self.config;
        let place = config.own as usize - 1;
        permutation[place]
    }

    // Whether a stage holds the place.
    pub(crate) fn waits(self, place: u8) -> bool
        requires { good_config self.config ≡ true }
        ensures { result ≡ waits self.config place }
    {
        let config = self.config;
        stage_for(config, place) <= config.stages as usize
    }
}

// The stage that holds a place, counted from 1; past the last one where none does.
#[tactic(auto, unfolding(crate::specs::Stage::stage_of))]
pub(crate) fn stage_for(config: Config, place: u8) -> usize
    requires { config.stages ≤ most_stages }
    ensures { (result ≡ stage_for config place) × (result ≤ config.stages + 1) }
{
    let schedule = config.schedule;
    let stages = config.stages as usize;
    let mut rest = place;
    for k in 0..stages {
        if rest <= schedule[k] {
            return k + 1;
        }
        rest -= schedule[k];
    }
    stages + 1
}

// How long a stage waits.
pub(crate) fn delay_of(config: Config, stage: usize) -> u64
    requires { (stage ≤ most_stages) × (config.delta_stage ≤ longest_stage) }
    ensures { result ≡ delay_of config stage }
{
    stage as u64 * config.delta_stage
}
