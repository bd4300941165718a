// What a line says.
ghost use Rattle.std.specs.Prelude.{◌≡◌, true, ◌≤◌, ◌<◌, ◌^◌, length};
ghost use Rattle.epochline.specs.Decimal.{all_digits, value_of, is_number, most_digits};
ghost use Rattle.epochline.specs.Lines.{space_in, word, behind, only, heard_in, command_of, feed_of, config_in};

use crate::{Command, NOUGHT, SPACE};
use config::Config;

// The configuration of n members, f of whom may be faulty.
pub(crate) fn config_of(n: u8, f: u8, own: u8) -> Config
    ensures { result ≡ feed_of n f own }
{
    let schedule = [n, 0, 0, 0, 0, 0, 0, 0];
    Config::new(0, n, f, own, 1, 0, 0, 0, 1, schedule)
}

// The configuration that the first line says; one of no members where it has another shape.
#[tactic(auto, using(crate::proofs::Decimals::number_facts), unfolding(crate::specs::Lines::config_in))]
pub(crate) fn config_in(line: &[u8]) -> Config
    ensures { result ≡ config_in line.now }
{
    let rest = behind(line);
    let first = word(line);
    let second = word(rest);
    let third = behind(rest);
    if is_member(first) & is_member(second) & is_member(third) {
        return config_of(value(first) as u8, value(second) as u8, value(third) as u8);
    }
    config_of(0, 0, 0)
}

// What a later line says; nothing where it has another shape.
#[tactic(auto, unfolding(crate::specs::Lines::command_of))]
pub(crate) fn command_of(line: &[u8]) -> Option<Command>
    ensures { result ≡ command_of line.now }
{
    if only(b'S', line) {
        return Some(Command::Start);
    }
    if only(b'P', line) {
        return Some(Command::Progress);
    }
    if only(b'N', word(line)) {
        return heard_in(behind(line));
    }
    None
}

// "member epoch"; nothing where it has another shape
#[tactic(auto, using(crate::proofs::Decimals::number_facts), unfolding(crate::specs::Lines::heard_in))]
fn heard_in(line: &[u8]) -> Option<Command>
    ensures { result ≡ heard_in line.now }
{
    let member = word(line);
    let epoch = behind(line);
    if is_member(member) & is_number(10, Config::LAST_EPOCH as u64, epoch) {
        return Some(Command::Heard(value(member) as u8, value(epoch) as u32));
    }
    None
}

// Whether this character is all there is.
fn only(b: u8, s: &[u8]) -> bool
    ensures { result ≡ only b s.now }
{
    s.len() == 1 && s[0] == b
}

// What stands before the first space.
fn word(s: &[u8]) -> &[u8]
    ensures { result.now ≡ word s.now }
{
    &s[..space_in(s)]
}

// What stands behind the first space.
fn behind(s: &[u8]) -> &[u8]
    ensures { result.now ≡ behind s.now }
{
    s.get(space_in(s) + 1..).unwrap_or(&[])
}

// The place of the first space; the length where there is none.
#[tactic(auto, using(crate::proofs::Words::space_at))]
fn space_in(s: &[u8]) -> usize
    ensures { (result ≡ space_in s.now) × (result ≤ length s.now) }
{
    s.iter().position(|b| *b == SPACE).unwrap_or(s.len())
}

// Whether these digits say a number that a member can have.
fn is_member(s: &[u8]) -> bool
    ensures { result ≡ is_number 3 255 s.now }
{
    is_number(3, 255, s)
}

// Whether these are digits, at most so many, of a number up to a limit, without leading zeros.
#[tactic(auto, using(crate::proofs::Decimals::sized, crate::proofs::Decimals::number_sized))]
fn is_number(places: usize, limit: u64, s: &[u8]) -> bool
    requires { places ≤ most_digits }
    ensures { result ≡ is_number places limit s.now }
{
    let len = s.len();
    if (len < 1) | (places < len) {
        return false;
    }
    if !all_digits(s) {
        return false;
    }
    ((len == 1) | (s[0] != NOUGHT)) & (value(s) <= limit)
}

fn all_digits(s: &[u8]) -> bool
    ensures { result ≡ all_digits s.now }
{
    s.iter().all(|b| matches!(*b, b'0'..=b'9'))
}

// The number that digits say.
#[tactic(auto, using(crate::proofs::Decimals::digits_at), unfolding(crate::specs::Decimal::value_from))]
fn value(s: &[u8]) -> u64
    requires { (length s.now ≤ most_digits) × (all_digits s.now ≡ true) }
    ensures { (result ≡ value_of s.now) × (result < 10 ^ length s.now) }
{
    let mut x: u64 = 0;
    for b in s {
        x = x * 10 + u64::from(*b - NOUGHT);
    }
    x
}
