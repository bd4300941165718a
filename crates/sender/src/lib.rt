// The sender: which reports a node holds for transmission, how long each waits for its stage, and which one leaves when its time has come.
#![tactic(auto)]

mod answers;
mod queueing;
mod staging;

ghost use Rattle.std.specs.Prelude.{◌≡◌, ◌≤◌, ◌<◌, length};
ghost use Rattle.config.specs.Limits.{slots, waiting_size};
ghost use Rattle.frame.specs.Decode.{attested_in};
ghost use Rattle.sender.specs.Calls.{made_of, accepting, accepting_bytes, sent, transmitted, transmit_of, releasing, released, timeout_of, handed_part};
ghost use Rattle.sender.specs.Waiting.{earliest};
ghost use Rattle.sender.specs.Ready.{Passed, Due};

use config::{Answer, Commit, Config};
use frame::Kind;

// The report that a node accepted last; epoch and round are both 0 before the first one.
#[repr(C)]
#[derive(Clone, Copy)]
pub struct Accepted {
    pub median: i64,
    pub epoch: u32,
    pub round: u8,
}

// What a sender holds. The bodies of the waiting reports lie in a buffer that the host lends, a slot after another.
#[repr(C)]
#[derive(Clone, Copy)]
pub struct Sender {
    pub config: Config,
    pub accepted: Accepted,
    // times[slot]: when the report in the slot is due; 0 where the slot is free
    pub times: [u64; Config::SLOTS],
    // taken[slot]: 1 while a report waits in the slot
    pub taken: [u8; Config::SLOTS],
}

// What making a sender came to.
#[derive(Clone, Copy)]
pub struct Made {
    pub answer: Answer,
    pub sender: Sender,
}

// What becomes of T_transmit: left as it is, set to fire after so many milliseconds, or stopped.
#[derive(Clone, Copy)]
pub enum Transmit {
    Leave,
    Set(u64),
    Stop,
}

// What a transmission came to.
#[derive(Clone, Copy)]
pub struct Queued {
    pub answer: Answer,
    pub sender: Sender,
    pub transmit: Transmit,
}

// A part of the slots' bytes: `len` of them, from `start` on.
#[derive(Clone, Copy)]
pub struct Part {
    pub start: usize,
    pub len: usize,
}

// What a timeout came to, and where the report lies that is handed out, where one is.
#[derive(Clone, Copy)]
pub struct Released {
    pub answer: Answer,
    pub sender: Sender,
    pub transmit: Transmit,
    pub handed: Option<Part>,
}

impl Sender {
    // A sender that has accepted nothing; CONFIG where the configuration is out of range.
    #[tactic(auto, unfolding(crate::specs::Calls::made_of))]
    pub fn fresh(config: Config) -> Made
        ensures { result ≡ made_of config }
    {
        let accepted = Accepted {
            median: 0,
            epoch: 0,
            round: 0,
        };
        Made {
            answer: config::of_making(config.good()),
            sender: Sender {
                config,
                accepted,
                times: [0; Config::SLOTS],
                taken: [0; Config::SLOTS],
            },
        }
    }

    // A FINAL body is to be transmitted, as the host's permutation orders the members.
    #[tactic(auto, using(crate::proofs::Ready::own_within, crate::proofs::Ready::transmit_passed), unfolding(crate::specs::Calls::transmit_of))]
    pub fn transmit(
        self,
        body: &[u8],
        time: u64,
        commit: Commit,
        permutation: &[u8],
        waiting: &mut [u8],
    ) -> Queued
        ensures { sent result waiting.new ≡ transmit_of self body.now time commit permutation.now waiting.old }
    {
        let answer = self.transmit_answer(body, time, commit, permutation, &waiting[..]);
        if answer.is_ok() {
            let place = self.place_in(permutation);
            return self.transmitted(body, time, place, waiting);
        }
        Queued {
            answer,
            sender: self,
            transmit: Transmit::Leave,
        }
    }

    // The report becomes the accepted one, and waits if a stage holds the place.
    #[tactic(auto, unfolding(crate::specs::Calls::transmitted))]
    fn transmitted(self, body: &[u8], time: u64, place: u8, waiting: &mut [u8]) -> Queued
        requires { Passed self body.now time place waiting.old }
        ensures { sent result waiting.new ≡ transmitted self body.now time place waiting.old }
    {
        let sender = self.accepting(body, time, place, waiting);
        Queued {
            answer: Ok(()),
            sender,
            transmit: sender.transmit_at(&waiting[..], time),
        }
    }

    // The sender after a report is accepted, and its slots.
    #[tactic(auto, unfolding(crate::specs::Calls::accepting, crate::specs::Calls::accepting_bytes))]
    fn accepting(self, body: &[u8], time: u64, place: u8, waiting: &mut [u8]) -> Sender
        requires { Passed self body.now time place waiting.old }
        ensures { (result ≡ accepting self (attested_in body.now) time place) × (waiting.new ≡ accepting_bytes self body.now place waiting.old) }
    {
        let config = self.config;
        let accepted = Accepted {
            median: report::median(body, frame::stride(Kind::Final)),
            epoch: frame::epoch_of(body),
            round: frame::round_of(body),
        };
        let next = Sender { accepted, ..self };
        if !self.waits(place) {
            return next;
        }
        // the checks leave a free slot
        let slot = queueing::free_in(self.taken).unwrap();
        let start = slot * Config::KEPT;
        report::keep(&mut waiting[start..], body);
        next.with_slot(
            slot,
            1,
            time + staging::delay_of(config, staging::stage_for(config, place)),
        )
    }

    // T_transmit fires.
    #[tactic(auto, using(crate::proofs::Ready::timeout_passed), unfolding(crate::specs::Calls::timeout_of))]
    pub fn timeout(self, time: u64, commit: Commit, waiting: &[u8]) -> Released
        ensures { result ≡ timeout_of self time commit waiting.now }
    {
        let answer = self.timeout_answer(time, commit, waiting);
        if answer.is_ok() {
            // the checks leave a report that waits
            let slot = self.earliest(waiting).unwrap();
            return self.released(slot, time, commit, waiting);
        }
        Released {
            answer,
            sender: self,
            transmit: Transmit::Leave,
            handed: None,
        }
    }

    // The report in this slot, the earliest, leaves.
    #[tactic(auto, unfolding(crate::specs::Calls::released))]
    fn released(self, slot: usize, time: u64, commit: Commit, waiting: &[u8]) -> Released
        requires { Due self waiting.now × (slot ≡ earliest self waiting.now) }
        ensures { result ≡ released self time commit waiting.now }
    {
        let sender = self.with_slot(slot, 0, 0);
        Released {
            answer: Ok(()),
            sender,
            transmit: sender.transmit_at(waiting, time),
            handed: releasing(waiting, commit, slot),
        }
    }
}

// Where the report of a slot lies, if it is newer than the commit.
#[tactic(auto, using(crate::proofs::Slots::length_slot, crate::proofs::Slots::slot_at), unfolding(frame::specs::Table::shape_of, frame::specs::Table::table, crate::specs::Calls::releasing))]
fn releasing(waiting: &[u8], commit: Commit, slot: usize) -> Option<Part>
    requires { (waiting_size ≤ length waiting.now) × (slot < slots) }
    ensures { result ≡ releasing waiting.now commit slot }
{
    let bytes = queueing::slot_in(waiting, slot);
    if report::newer(
        frame::epoch_of(bytes),
        frame::round_of(bytes),
        commit.epoch,
        commit.round,
    ) {
        return Some(Part {
            start: slot * Config::KEPT,
            len: frame::final_length(bytes),
        });
    }
    None
}

// The report that a timeout hands out, as a part of the slots' bytes; an empty part where none is.
pub fn handed_part(handed: Option<Part>, waiting: &[u8]) -> &[u8]
    ensures { result.now ≡ handed_part handed waiting.now }
{
    match handed {
        Some(part) => report::part_of(waiting, part.start, part.len),
        None => &[],
    }
}
