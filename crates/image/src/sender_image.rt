// The image of a sender.
ghost use Rattle.std.specs.Prelude.{◌+◌, ◌≤◌, length};
ghost use Rattle.image.specs.Image.{accepted_size, sender_size};

use crate::numbers::{bytes_at, numbers_at, put_bytes, put_numbers};
use crate::{ACCEPTED, CONFIG};
use config::Config;
use sender::{Accepted, Sender};

pub fn sender_at(s: &[u8], at: usize) -> Sender
    requires { at + sender_size ≤ length s.now }
{
    let times = at + CONFIG + ACCEPTED;
    Sender {
        config: crate::config_at(s, at),
        accepted: accepted_at(s, at + CONFIG),
        times: numbers_at(s, times),
        taken: bytes_at(s, times + 8 * Config::SLOTS),
    }
}

pub fn put_sender(s: &mut [u8], sender: Sender)
    requires { sender_size ≤ length s.old }
{
    let times = CONFIG + ACCEPTED;
    crate::put_config(s, 0, sender.config);
    put_accepted(s, CONFIG, sender.accepted);
    put_numbers(s, times, &sender.times);
    put_bytes(s, times + 8 * Config::SLOTS, &sender.taken);
}

fn accepted_at(s: &[u8], at: usize) -> Accepted
    requires { at + accepted_size ≤ length s.now }
{
    Accepted {
        median: wire::read::<i64>(s, at),
        epoch: wire::read::<u32>(s, at + 8),
        round: s[at + 12],
    }
}

fn put_accepted(s: &mut [u8], at: usize, accepted: Accepted)
    requires { at + accepted_size ≤ length s.old }
{
    wire::write(s, at, accepted.median);
    wire::write(s, at + 8, accepted.epoch);
    wire::write(s, at + 12, accepted.round);
}
