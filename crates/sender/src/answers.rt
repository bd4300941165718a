// What a sender answers before its rules run.
ghost use Rattle.std.specs.Prelude.{◌≡◌, true, not, ◌&&◌, ◌||◌, ◌≤◌, ◌<◌, eqb, length};
ghost use Rattle.config.specs.Limits.{members, slots, waiting_size};
ghost use Rattle.config.specs.Bounds.{good_config, good_time, good_commit};
ghost use Rattle.config.specs.Answers.{Done};
ghost use Rattle.frame.specs.Decode.{attested_in};
ghost use Rattle.frame.specs.Check.{body_answer};
ghost use Rattle.frame.specs.Range.{good_attested};
ghost use Rattle.sender.specs.State.{good_times, good_fields, good_slots, good_sender, report_in};
ghost use Rattle.sender.specs.Calls.{similar, old, after_similar, after_config, after_body, transmit_answer, early, timeout_answer};

use crate::{Sender, queueing, staging};
use config::{Answer, Commit, Config, Refusal};
use frame::Kind;

impl Sender {
    // Whether every field is in its range, and so is every body that waits in slots of full size.
    #[tactic(auto, unfolding(crate::specs::State::good_sender))]
    pub fn good(self, waiting: &[u8]) -> bool
        ensures { result ≡ good_sender self waiting.now }
    {
        self.good_fields() && (waiting.len() < Config::WAITING || self.good_slots(waiting))
    }

    // Whether every field is in its range.
    #[tactic(auto, unfolding(crate::specs::State::good_fields))]
    fn good_fields(self) -> bool
        ensures { result ≡ good_fields self }
    {
        let config = self.config;
        let accepted = self.accepted;
        let taken = self.taken;
        config.good()
            & config::paired(accepted.epoch, accepted.round)
            & quorum::flags(&taken)
            & good_times(self.times)
    }

    // Whether each slot is free or holds a body in range.
    #[tactic(auto, unfolding(crate::specs::State::good_slots))]
    fn good_slots(self, waiting: &[u8]) -> bool
        requires { (self.config.n ≤ members) × (waiting_size ≤ length waiting.now) }
        ensures { result ≡ good_slots slots self waiting.now }
    {
        let n = self.config.n;
        for (slot, flag) in self.taken.iter().enumerate() {
            if !good_slot(*flag, waiting, slot, n) {
                return false;
            }
        }
        true
    }

    // 2, 3, 8 and 9 of the body, then what comes after those.
    #[tactic(auto, using(config::proofs::Facts::done_only, crate::proofs::Ready::sender_config), unfolding(crate::specs::Calls::transmit_answer))]
    pub(crate) fn transmit_answer(
        self,
        body: &[u8],
        time: u64,
        commit: Commit,
        permutation: &[u8],
        waiting: &[u8],
    ) -> Answer
        ensures { result ≡ transmit_answer self body.now time commit permutation.now waiting.now }
    {
        if !self.good(waiting) {
            return Err(Refusal::State);
        }
        if waiting.len() < Config::WAITING {
            return Err(Refusal::Room);
        }
        let config = self.config;
        frame::check_final(body, config.n)?;
        self.after_body(body, time, commit, permutation)
    }

    // 9 of the time and the commit, 12, then what comes after those.
    #[tactic(auto, using(crate::proofs::Ready::own_within), unfolding(crate::specs::Calls::after_body))]
    fn after_body(self, body: &[u8], time: u64, commit: Commit, permutation: &[u8]) -> Answer
        requires { (good_config self.config ≡ true) × (body_answer self.config.n 6 body.now ≡ Done) }
        ensures { result ≡ after_body self body.now time commit permutation.now }
    {
        if !in_range(time, commit) {
            return Err(Refusal::Range);
        }
        let config = self.config;
        if !staging::permutes(config.n, permutation) {
            return Err(Refusal::Config);
        }
        self.after_config(body, commit, self.place_in(permutation))
    }

    // 13, 19, then 20.
    #[tactic(auto, unfolding(crate::specs::Calls::after_config))]
    fn after_config(self, body: &[u8], commit: Commit, place: u8) -> Answer
        requires { (good_config self.config ≡ true) × (body_answer self.config.n 6 body.now ≡ Done) }
        ensures { result ≡ after_config self commit (attested_in body.now) place }
    {
        if self.old(body, commit) {
            return Err(Refusal::Old);
        }
        if self.similar(commit, report::median(body, frame::stride(Kind::Final))) {
            return Err(Refusal::Similar);
        }
        self.after_similar(place)
    }

    // Whether a report is not newer than the commit, or than the accepted one.
    fn old(self, body: &[u8], commit: Commit) -> bool
        requires { 5 ≤ length body.now }
        ensures { result ≡ old self commit (attested_in body.now) }
    {
        let accepted = self.accepted;
        let epoch = frame::epoch_of(body);
        let round = frame::round_of(body);
        !report::newer(epoch, round, commit.epoch, commit.round)
            | !report::newer(epoch, round, accepted.epoch, accepted.round)
    }

    // Whether the filter holds a report of this median back.
    fn similar(self, commit: Commit, median: i64) -> bool
        ensures { result ≡ similar self commit median }
    {
        let accepted = self.accepted;
        !(none_yet(accepted.epoch, accepted.round)
            | price::deviates(self.config, accepted.median, median)
            | !report::newer(accepted.epoch, accepted.round, commit.epoch, commit.round))
    }

    // 20, which cannot occur beyond the last stage.
    #[tactic(auto, unfolding(crate::specs::Calls::after_similar))]
    fn after_similar(self, place: u8) -> Answer
        requires { good_config self.config ≡ true }
        ensures { result ≡ after_similar self place }
    {
        if self.waits(place) & queueing::free_in(self.taken).is_none() {
            return Err(Refusal::Queue);
        }
        Ok(())
    }

    // 2, 3, 9, 1.
    #[tactic(auto, unfolding(crate::specs::Calls::timeout_answer))]
    pub(crate) fn timeout_answer(self, time: u64, commit: Commit, waiting: &[u8]) -> Answer
        ensures { result ≡ timeout_answer self time commit waiting.now }
    {
        if !self.good(waiting) {
            return Err(Refusal::State);
        }
        if waiting.len() < Config::WAITING {
            return Err(Refusal::Room);
        }
        if !in_range(time, commit) {
            return Err(Refusal::Range);
        }
        if self.early(time, waiting) {
            return Err(Refusal::Ignored);
        }
        Ok(())
    }

    // Whether nothing is due: no report waits, or the earliest one's time has not come.
    #[tactic(auto, unfolding(crate::specs::Calls::early))]
    fn early(self, time: u64, waiting: &[u8]) -> bool
        requires { waiting_size ≤ length waiting.now }
        ensures { result ≡ early self time waiting.now }
    {
        self.earliest(waiting)
            .is_none_or(|slot| time < self.times[slot])
    }
}

// Whether a slot is free, or its body is in range.
#[tactic(auto, using(crate::proofs::Slots::length_slot))]
fn good_slot(flag: u8, waiting: &[u8], slot: usize, n: u8) -> bool
    requires { (n ≤ members) × (waiting_size ≤ length waiting.now) × (slot < slots) }
    ensures { result ≡ not (eqb flag 1) || good_attested n (report_in waiting.now slot) }
{
    flag != 1 || report::good_kept(queueing::slot_in(waiting, slot), n)
}

// Whether every slot's time is in range.
fn good_times(times: [u64; Config::SLOTS]) -> bool
    ensures { result ≡ good_times times }
{
    times
        .iter()
        .all(|time| *time <= Config::LAST_TIME + Config::LONGEST_DELAY)
}

// Whether time and commit are in range.
fn in_range(time: u64, commit: Commit) -> bool
    ensures { result ≡ good_time time && good_commit commit }
{
    config::good_time(time) & commit.good()
}

// Whether no report was accepted yet.
fn none_yet(epoch: u32, round: u8) -> bool
    ensures { result ≡ eqb epoch 0 && eqb round 0 }
{
    (epoch == 0) & (round == 0)
}
