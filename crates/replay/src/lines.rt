// What is printed of a call.
use config::{Answer, Timer};
use follower::Handed;
use node::{Outcome, Timers};
use sender::{Part, Transmit};
use std::io;
use std::io::Print;

// The start of a line: the letter of the call and its code.
pub fn begin<R: Print>(rt: &R, letter: char, answer: Answer) -> io::Result<()> {
    print!(rt; "{letter}")?;
    show::number(rt, u64::from(config::number(answer)))
}

pub fn end<R: Print>(rt: &R) -> io::Result<()> {
    println!(rt)
}

// The results of a node's call.
pub fn outcome<R: Print>(rt: &R, outcome: Outcome) -> io::Result<()> {
    show::number(rt, outcome.written as u64)?;
    timers(rt, outcome.timers)?;
    handed(rt, outcome.handed)
}

fn timers<R: Print>(rt: &R, timers: Timers) -> io::Result<()> {
    let resend = timer(timers.resend);
    let progress = timer(timers.progress);
    let round = timer(timers.round);
    let grace = timer(timers.grace);
    print!(rt; " {resend}{progress}{round}{grace}")
}

fn timer(timer: Timer) -> char {
    match timer {
        Timer::Leave => '-',
        Timer::Start => 's',
        Timer::Stop => 'x',
    }
}

fn handed<R: Print>(rt: &R, handed: Handed) -> io::Result<()> {
    let from = if handed.held { 'k' } else { 'f' };
    print!(rt; " {from}{}+{}", handed.start, handed.len)
}

// What becomes of T_transmit.
pub fn transmit<R: Print>(rt: &R, transmit: Transmit) -> io::Result<()> {
    match transmit {
        Transmit::Leave => print!(rt; " -"),
        Transmit::Set(x) => print!(rt; " s{x}"),
        Transmit::Stop => print!(rt; " x"),
    }
}

// The part of the slots that a timeout hands out; `0+0` where none is.
pub fn part<R: Print>(rt: &R, part: Option<Part>) -> io::Result<()> {
    let (start, len) = part.map_or((0, 0), |part| (part.start, part.len));
    print!(rt; " {start}+{len}")
}
