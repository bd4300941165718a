// What a call answers before any rule runs, in document 01's order of codes.
ghost use Rattle.std.specs.Prelude.{◌≡◌, true, ◌<◌};
ghost use Rattle.config.specs.Bounds.{good_config};
ghost use Rattle.config.specs.Answers.{Done};
ghost use Rattle.frame.specs.Kinds.{number_of};
ghost use Rattle.frame.specs.Decode.{message_of};
ghost use Rattle.frame.specs.Check.{frame_answer};
ghost use Rattle.node.specs.State.{leads, good_node, good_state, roomy};
ghost use Rattle.node.specs.Event.{delivers, delivery_of};
ghost use Rattle.node.specs.Answers.{start_answer, firing, ending, timer_answer, unarmed_answer, follower_answer, leader_answer, rule_answer, message_answer, event_answer, after_state};
ghost use Rattle.node.specs.Calls.{restore_answer};
ghost use Rattle.node.specs.Ready.{Sound};

use crate::{Arrival, Fired, Node};
use config::{Answer, Config, Refusal, Saved};
use follower::Follower;
use frame::Kind;

// 12, then 2.
#[tactic(auto, unfolding(crate::specs::Calls::restore_answer))]
pub(crate) fn restore_answer(config: Config, saved: Saved) -> Answer
    ensures { result ≡ restore_answer config saved }
{
    if !config.good() {
        return Err(Refusal::Config);
    }
    if saved.highest < saved.epoch {
        return Err(Refusal::State);
    }
    Ok(())
}

// A timer that is none of the four: 9, 1.
#[tactic(auto, unfolding(crate::specs::Answers::unarmed_answer))]
pub(crate) fn unarmed_answer(time: u64) -> Answer
    ensures { result ≡ unarmed_answer time }
{
    if config::good_time(time) {
        return Err(Refusal::Ignored);
    }
    Err(Refusal::Range)
}

// Whether the lent buffers have their sizes, the outbox from the position on.
#[tactic(auto, unfolding(crate::specs::State::roomy))]
pub(crate) fn roomy(outbox: usize, at: usize, kept: usize, signatures: usize) -> bool
    ensures { result ≡ roomy outbox at kept signatures }
{
    if outbox < at {
        return false;
    }
    (Config::OUTBOX <= outbox - at) & (Config::KEPT <= kept) & (Config::SIGNATURES <= signatures)
}

impl Node {
    // Whether every field is in its range, and so is the body that is kept in a buffer of full size.
    #[tactic(auto, using(crate::proofs::Ready::node_members), unfolding(crate::specs::State::good_state, crate::specs::State::good_kept))]
    fn good(self, kept: &[u8]) -> bool
        ensures { result ≡ good_state self kept.now }
    {
        if !self.good_fields() {
            return false;
        }
        if (self.follower.kept != 1) | (kept.len() < Config::KEPT) {
            return true;
        }
        report::good_kept(kept, self.config.n)
    }

    // Whether every field is in its range.
    #[tactic(auto, unfolding(crate::specs::State::good_node))]
    fn good_fields(self) -> bool
        ensures { result ≡ good_node self }
    {
        self.config.good() & self.pace.good() & self.follower.good() & self.leader.good()
    }

    // 2, 3, then the answer of the event.
    #[tactic(auto, unfolding(crate::specs::Answers::after_state))]
    pub(crate) fn after_state(self, room: bool, kept: &[u8], answer: Answer) -> Answer
        ensures { result ≡ after_state room self kept.now answer }
    {
        if !self.good(kept) {
            return Err(Refusal::State);
        }
        if !room {
            return Err(Refusal::Room);
        }
        answer
    }

    // Start: 9, 1.
    #[tactic(auto, unfolding(crate::specs::Answers::start_answer))]
    pub(crate) fn start_answer(self, time: u64) -> Answer
        ensures { result ≡ start_answer self time }
    {
        if !config::good_time(time) {
            return Err(Refusal::Range);
        }
        if !self.pace.may_start() {
            return Err(Refusal::Ignored);
        }
        Ok(())
    }

    // A timer: 2, 3, then 9, 1, 11.
    #[tactic(auto, using(crate::proofs::Checks::state_then, crate::proofs::Checks::state_config))]
    pub(crate) fn timer_answer(self, fired: Fired, time: u64, room: bool, kept: &[u8]) -> Answer
        ensures { result ≡ after_state room self kept.now (timer_answer self fired time) }
    {
        self.after_state(room, kept, Ok(()))?;
        self.fired_answer(fired, time)
    }

    // A timer: 9, 1, 11.
    #[tactic(auto, unfolding(crate::specs::Answers::timer_answer))]
    fn fired_answer(self, fired: Fired, time: u64) -> Answer
        requires { good_config self.config ≡ true }
        ensures { result ≡ timer_answer self fired time }
    {
        if !config::good_time(time) {
            return Err(Refusal::Range);
        }
        if !self.firing(fired) {
            return Err(Refusal::Ignored);
        }
        if self.ending(fired) {
            return Err(Refusal::End);
        }
        Ok(())
    }

    // Whether the conditions of a timer's rule hold.
    #[tactic(auto, using(crate::proofs::Ready::members_some, crate::proofs::Ready::members_most), unfolding(crate::specs::Answers::firing))]
    fn firing(self, fired: Fired) -> bool
        requires { good_config self.config ≡ true }
        ensures { result ≡ firing self fired }
    {
        let config = self.config;
        match fired {
            Fired::Resend => self.pace.fires_resend(),
            Fired::Progress => self.pace.fires_progress(),
            Fired::Round => self.leader.fires_round(self.leads()),
            Fired::Grace => self.leader.fires_grace(config.n, config.f, self.leads()),
        }
    }

    // Whether a timer's rule would lead past the last epoch or round.
    #[tactic(auto, unfolding(crate::specs::Answers::ending))]
    fn ending(self, fired: Fired) -> bool
        ensures { result ≡ ending self fired }
    {
        match fired {
            Fired::Progress => self.pace.past_end(),
            Fired::Round => self.leader.past_end(),
            Fired::Resend | Fired::Grace => false,
        }
    }

    // A delivery: 2, 3, 4 to 9 of the frame, then what comes after those.
    #[tactic(auto, using(config::proofs::Facts::done_only, crate::proofs::Checks::state_then, crate::proofs::Checks::state_config), unfolding(crate::specs::Answers::delivery_answer))]
    pub(crate) fn delivery_answer(self, arrival: Arrival<'_>, room: bool, kept: &[u8]) -> Answer
        ensures { result ≡ after_state room self kept.now (event_answer self (delivers (delivery_of arrival.entry))) }
    {
        self.after_state(room, kept, Ok(()))?;
        let config = self.config;
        frame::check(arrival.frame, config.n, config.number, arrival.link)?;
        self.after_frame(arrival)
    }

    // 9 of the time and the commit, then 1, 10 and 11 of the message.
    #[tactic(auto, using(frame::proofs::Framed::checked_frame, crate::proofs::Ready::sound_frame), unfolding(crate::specs::Answers::delivery_answer, config::specs::Codes::number_of))]
    fn after_frame(self, arrival: Arrival<'_>) -> Answer
        requires { (good_config self.config ≡ true) × (frame_answer arrival.frame.now self.config.n self.config.number arrival.link ≡ Done) }
        ensures { result ≡ event_answer self (delivers (delivery_of arrival.entry)) }
    {
        if !(config::good_time(arrival.time) & arrival.commit.good()) {
            return Err(Refusal::Range);
        }
        let kind = frame::known_kind(arrival.frame);
        let body = frame::body_of(arrival.frame);
        self.message_answer(arrival.link, arrival.bits, kind, body)
    }

    // 1 before Start, then 1 and 10 of the rule, then 11.
    #[tactic(auto, unfolding(crate::specs::Answers::message_answer))]
    fn message_answer(self, j: u8, bits: u64, kind: Kind, body: &[u8]) -> Answer
        requires { Sound self.config j (number_of kind) body.now }
        ensures { result ≡ message_answer self j bits (message_of (number_of kind) body.now) }
    {
        if self.pace.may_start() {
            return Err(Refusal::Ignored);
        }
        self.rule_answer(j, bits, kind, body)?;
        if Follower::halts(self.config, kind, body) & self.pace.past_end() {
            return Err(Refusal::End);
        }
        Ok(())
    }

    // 1 and 10, by the message's kind.
    #[tactic(auto, unfolding(frame::specs::Decode::message_of))]
    fn rule_answer(self, j: u8, bits: u64, kind: Kind, body: &[u8]) -> Answer
        requires { Sound self.config j (number_of kind) body.now }
        ensures { result ≡ rule_answer self j bits (message_of (number_of kind) body.now) }
    {
        let number = kind.number();
        match number {
            1 => Ok(()),
            3 | 5 => self.leader_answer(j, bits, kind, body),
            _ => self.follower_answer(j, bits, kind, body),
        }
    }

    #[tactic(auto, using(crate::proofs::Ready::members_most), unfolding(crate::specs::Answers::follower_answer))]
    fn follower_answer(self, j: u8, bits: u64, kind: Kind, body: &[u8]) -> Answer
        requires { Sound self.config j (number_of kind) body.now }
        ensures { result ≡ follower_answer self j bits (message_of (number_of kind) body.now) }
    {
        let epoch = self.pace.epoch;
        let leader = config::leader_of(self.config.n, epoch);
        self.follower
            .finding(self.config, epoch, leader, j, kind, body, bits)?;
        Ok(())
    }

    #[tactic(auto, using(crate::proofs::Ready::members_most), unfolding(crate::specs::Answers::leader_answer))]
    fn leader_answer(self, j: u8, bits: u64, kind: Kind, body: &[u8]) -> Answer
        requires { Sound self.config j (number_of kind) body.now }
        ensures { result ≡ leader_answer self j bits (message_of (number_of kind) body.now) }
    {
        let n = self.config.n;
        let leader = self.leader;
        if !leader.takes(n, self.leads(), self.pace.epoch, j, kind, body) {
            return Err(Refusal::Ignored);
        }
        if !leader.stands(n, bits, kind, body) {
            return Err(Refusal::Proof);
        }
        Ok(())
    }

    // Whether this node has started, its instance is not halted, and it is the leader.
    fn leads(self) -> bool
        requires { 0 < self.config.n }
        ensures { result ≡ leads self }
    {
        let config = self.config;
        (self.pace.started == 1)
            & (self.follower.live == 1)
            & (config.own == config::leader_of(config.n, self.pace.epoch))
    }
}
