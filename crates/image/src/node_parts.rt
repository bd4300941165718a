// The images of the parts of a node: its pace, what it holds as a follower, and what it holds as a leader.
ghost use Rattle.std.specs.Prelude.{◌+◌, ◌≤◌, length};
ghost use Rattle.image.specs.Image.{pace_size, follower_size, leader_size};

use crate::numbers::{bytes_at, numbers_at, put_bytes, put_numbers};
use config::Config;
use follower::Follower;
use leader::Leader;
use pacemaker::Pace;

pub fn pace_at(s: &[u8], at: usize) -> Pace
    requires { at + pace_size ≤ length s.now }
{
    let flags = at + 8 + 4 * Config::MEMBERS;
    Pace {
        epoch: wire::read::<u32>(s, at),
        highest: wire::read::<u32>(s, at + 4),
        heard: numbers_at(s, at + 8),
        started: s[flags],
        progress: s[flags + 1],
        resend: s[flags + 2],
    }
}

pub fn put_pace(s: &mut [u8], at: usize, pace: Pace)
    requires { at + pace_size ≤ length s.old }
{
    let flags = at + 8 + 4 * Config::MEMBERS;
    wire::write(s, at, pace.epoch);
    wire::write(s, at + 4, pace.highest);
    put_numbers(s, at + 8, &pace.heard);
    put_bytes(s, flags, &[pace.started, pace.progress, pace.resend]);
}

pub fn follower_at(s: &[u8], at: usize) -> Follower
    requires { at + follower_size ≤ length s.now }
{
    Follower {
        live: s[at],
        round: s[at + 1],
        signed: s[at + 2],
        completed: s[at + 3],
        kept: s[at + 4],
        marks: bytes_at(s, at + 5),
    }
}

pub fn put_follower(s: &mut [u8], at: usize, follower: Follower)
    requires { at + follower_size ≤ length s.old }
{
    let numbers = [
        follower.live,
        follower.round,
        follower.signed,
        follower.completed,
        follower.kept,
    ];
    put_bytes(s, at, &numbers);
    put_bytes(s, at + 5, &follower.marks);
}

pub fn leader_at(s: &[u8], at: usize) -> Leader
    requires { at + leader_size ≤ length s.now }
{
    let observed = at + 8 * Config::MEMBERS;
    let reported = observed + Config::MEMBERS;
    let phase = reported + Config::MEMBERS;
    Leader {
        values: numbers_at(s, at),
        observed: bytes_at(s, observed),
        reported: bytes_at(s, reported),
        phase: s[phase],
        round: s[phase + 1],
        t_round: s[phase + 2],
        t_grace: s[phase + 3],
    }
}

pub fn put_leader(s: &mut [u8], at: usize, leader: Leader)
    requires { at + leader_size ≤ length s.old }
{
    let observed = at + 8 * Config::MEMBERS;
    let reported = observed + Config::MEMBERS;
    let phase = reported + Config::MEMBERS;
    put_numbers(s, at, &leader.values);
    put_bytes(s, observed, &leader.observed);
    put_bytes(s, reported, &leader.reported);
    put_bytes(
        s,
        phase,
        &[leader.phase, leader.round, leader.t_round, leader.t_grace],
    );
}
