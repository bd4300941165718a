// The images of docs/REPLAY.md: what stands at each place of the bytes of a sender, a contract and each part of a node, with a reader `.._at`
// and a writer `put_..` for each, and the memory that holds them. It does not rest on `node`, so that the two are proved side by side.
#![tactic(auto)]

mod contract_image;
pub mod memory;
mod node_parts;
mod numbers;
mod sender_image;

ghost use Rattle.std.specs.Prelude.{◌+◌, ◌≤◌, length};
ghost use Rattle.image.specs.Image.{config_size, commit_size};

use config::{Commit, Config};
pub use contract_image::{contract_at, put_contract, terms_at};
pub use node_parts::{follower_at, leader_at, pace_at, put_follower, put_leader, put_pace};
use numbers::{bytes_at, put_bytes};
pub use sender_image::{put_sender, sender_at};

// The bytes of each.
pub const CONFIG: usize = 33 + Config::STAGES;

pub const COMMIT: usize = 21;

pub const PACE: usize = 11 + 4 * Config::MEMBERS;

pub const FOLLOWER: usize = 5 + Config::MEMBERS;

const LEADER: usize = 10 * Config::MEMBERS + 4;

pub const NODE: usize = CONFIG + PACE + FOLLOWER + LEADER;

const ACCEPTED: usize = 13;

pub const SENDER: usize = CONFIG + ACCEPTED + 9 * Config::SLOTS;

const ACCOUNT: usize = 16;

const LEDGER: usize = 16 + ACCOUNT * Config::MEMBERS;

pub const TERMS: usize = 18;

pub const CONTRACT: usize = LEDGER + COMMIT + TERMS;

// ---- configuration and commit

pub fn config_at(s: &[u8], at: usize) -> Config
    requires { at + config_size ≤ length s.now }
{
    Config {
        number: wire::read::<u64>(s, at),
        delta_c: wire::read::<u64>(s, at + 8),
        delta_stage: wire::read::<u64>(s, at + 16),
        alpha: wire::read::<u32>(s, at + 24),
        n: s[at + 28],
        f: s[at + 29],
        own: s[at + 30],
        r_max: s[at + 31],
        stages: s[at + 32],
        schedule: bytes_at(s, at + 33),
    }
}

pub fn put_config(s: &mut [u8], at: usize, config: Config)
    requires { at + config_size ≤ length s.old }
{
    wire::write(s, at, config.number);
    wire::write(s, at + 8, config.delta_c);
    wire::write(s, at + 16, config.delta_stage);
    wire::write(s, at + 24, config.alpha);
    put_bytes(
        s,
        at + 28,
        &[config.n, config.f, config.own, config.r_max, config.stages],
    );
    put_bytes(s, at + 33, &config.schedule);
}

pub fn commit_at(s: &[u8], at: usize) -> Commit
    requires { at + commit_size ≤ length s.now }
{
    Commit {
        median: wire::read::<i64>(s, at),
        time: wire::read::<u64>(s, at + 8),
        epoch: wire::read::<u32>(s, at + 16),
        round: s[at + 20],
    }
}

pub(crate) fn put_commit(s: &mut [u8], at: usize, commit: Commit)
    requires { at + commit_size ≤ length s.old }
{
    wire::write(s, at, commit.median);
    wire::write(s, at + 8, commit.time);
    wire::write(s, at + 16, commit.epoch);
    wire::write(s, at + 20, commit.round);
}
