// Which messages a follower takes, and what is wrong with one that it takes.
ghost use Rattle.std.specs.Prelude.{◌≡◌, ℕ, ◌≤◌, length, Err};
ghost use Rattle.config.specs.Limits.{members};
ghost use Rattle.config.specs.Answers.{Done};
ghost use Rattle.frame.specs.Kinds.{number_of};
ghost use Rattle.frame.specs.Message.{observe_req, report_req, final, final_echo};
ghost use Rattle.frame.specs.Decode.{epoch_in, round_in, signed_in, attested_in, message_of};
ghost use Rattle.frame.specs.Check.{body_answer};
ghost use Rattle.follower.specs.Takes.{relation_of, current, takes, fault_of, finding_of, answer_of};
ghost use Rattle.follower.specs.declared.Objection.TheVariants.{Wrong};

use crate::{Finding, Follower, Objection};
use config::{Config, Refusal};
use frame::Kind;
use report::{Fault, Standing};
use std::cmp::Ordering;

impl From<Fault> for Objection {
    ghost from_gives = { λ fault objection. objection ≡ Wrong fault };

    fn from(fault: Fault) -> Objection {
        Objection::Wrong(fault)
    }
}

impl From<Objection> for Refusal {
    ghost from_gives = { λ objection refusal. Err refusal ≡ answer_of (Err objection) };

    // The answer that an objection is given.
    fn from(objection: Objection) -> Refusal {
        match objection {
            Objection::Ignored => Refusal::Ignored,
            Objection::Wrong(_) => Refusal::Proof,
        }
    }
}

impl Follower {
    // What is said of a message that came from member j, in an epoch led by `leader`.
    #[tactic(auto, unfolding(crate::specs::Takes::finding_of))]
    pub fn finding(
        self,
        config: Config,
        epoch: u32,
        leader: u8,
        j: u8,
        kind: Kind,
        body: &[u8],
        bits: u64,
    ) -> Finding
        requires { (body_answer config.n (number_of kind) body.now ≡ Done) × (1 ≤ j) × (j ≤ members) }
        ensures { result ≡ finding_of self config.f epoch leader j bits (message_of (number_of kind) body.now) }
    {
        if !self.takes(config.n, epoch, leader, j, kind, body) {
            return Err(Objection::Ignored);
        }
        fault_of(config.n, config.f, kind, body, bits)?;
        Ok(())
    }

    // Whether the conditions of the message's rule hold.
    #[tactic(auto, using(frame::proofs::Numbers::number_low, frame::proofs::Numbers::number_high, frame::proofs::Checked::checked_head, frame::proofs::Messages::by_kind), unfolding(frame::specs::Decode::message_of))]
    fn takes(self, n: u8, epoch: u32, leader: u8, j: u8, kind: Kind, body: &[u8]) -> bool
        requires { (body_answer n (number_of kind) body.now ≡ Done) × (1 ≤ j) × (j ≤ members) }
        ensures { result ≡ takes self epoch leader j (message_of (number_of kind) body.now) }
    {
        let kind = kind.number();
        match kind {
            2 => self.takes_request(epoch, leader, j, body),
            4 => self.takes_list(epoch, leader, j, body),
            6 => self.takes_final(epoch, leader, j, body),
            7 => self.takes_echo(epoch, j, body),
            _ => false,
        }
    }

    // Whether a message of this epoch is current: an instance runs, in that epoch.
    fn current(self, epoch: u32, e: u32) -> bool
        ensures { result ≡ current self epoch e }
    {
        (self.live == 1) & (e == epoch)
    }

    // How the round of a body stands to this node's: 0 below it, 1 the same, 2 above it.
    fn relation(self, body: &[u8]) -> u8
        requires { 5 ≤ length body.now }
        ensures { result ≡ relation_of (round_in body.now) self.round }
    {
        match frame::round_of(body).cmp(&self.round) {
            Ordering::Less => 0,
            Ordering::Equal => 1,
            Ordering::Greater => 2,
        }
    }

    #[tactic(auto, using(crate::proofs::Rounds::later_round))]
    fn takes_request(self, epoch: u32, leader: u8, j: u8, body: &[u8]) -> bool
        requires { 5 ≤ length body.now }
        ensures { result ≡ takes self epoch leader j (observe_req (epoch_in body.now) (round_in body.now)) }
    {
        let relation = self.relation(body);
        match relation {
            0..=1 => false,
            _ => self.current(epoch, frame::epoch_of(body)) & (j == leader),
        }
    }

    #[tactic(auto, using(crate::proofs::Rounds::same_round))]
    fn takes_list(self, epoch: u32, leader: u8, j: u8, body: &[u8]) -> bool
        requires { 5 ≤ length body.now }
        ensures { result ≡ takes self epoch leader j (report_req (epoch_in body.now) (round_in body.now) (signed_in body.now)) }
    {
        let relation = self.relation(body);
        match relation {
            1 => self.current(epoch, frame::epoch_of(body))
                & (j == leader)
                & (self.signed != 1)
                & (self.completed != 1),
            _ => false,
        }
    }

    #[tactic(auto, using(crate::proofs::Rounds::same_round))]
    fn takes_final(self, epoch: u32, leader: u8, j: u8, body: &[u8]) -> bool
        requires { 5 ≤ length body.now }
        ensures { result ≡ takes self epoch leader j (final (attested_in body.now)) }
    {
        let relation = self.relation(body);
        match relation {
            1 => self.current(epoch, frame::epoch_of(body)) & (j == leader) & (self.kept != 1),
            _ => false,
        }
    }

    #[tactic(auto, using(crate::proofs::Rounds::same_round))]
    fn takes_echo(self, epoch: u32, j: u8, body: &[u8]) -> bool
        requires { (5 ≤ length body.now) × (1 ≤ j) × (j ≤ members) }
        ensures { (leader : ℕ) → result ≡ takes self epoch leader j (final_echo (attested_in body.now)) }
    {
        let place = j as usize - 1;
        let mark = self.marks[place];
        let relation = self.relation(body);
        match relation {
            1 => self.current(epoch, frame::epoch_of(body)) & (mark != 1) & (self.completed != 1),
            _ => false,
        }
    }
}

// What is wrong with a message that is taken.
#[tactic(auto, using(frame::proofs::Numbers::number_low, frame::proofs::Numbers::number_high, frame::proofs::Messages::by_kind, crate::proofs::Bodies::whole_list, crate::proofs::Bodies::list_faults, crate::proofs::Bodies::whole_report), unfolding(frame::specs::Decode::message_of))]
fn fault_of(n: u8, f: u8, kind: Kind, body: &[u8], bits: u64) -> Standing
    requires { body_answer n (number_of kind) body.now ≡ Done }
    ensures { result ≡ fault_of f bits (message_of (number_of kind) body.now) }
{
    let kind = kind.number();
    match kind {
        4 => {
            report::list_fault(body, frame::stride(Kind::ReportReq), f)?;
            report::bits_fault(bits, frame::count_of(body))
        }
        6..=7 => report::attested_fault(body, f, bits),
        _ => Ok(()),
    }
}
