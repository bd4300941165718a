// The frames that a rule sends, written into the outbox.
ghost use Rattle.std.specs.Prelude.{◌≡◌, ◌≤◌, length};
ghost use Rattle.config.specs.Limits.{members, signatures_size};
ghost use Rattle.config.specs.Answers.{Done};
ghost use Rattle.frame.specs.Kinds.{number_of};
ghost use Rattle.frame.specs.Decode.{message_of};
ghost use Rattle.frame.specs.Check.{body_answer};
ghost use Rattle.outbox.specs.Written.{Fits};
ghost use Rattle.node.specs.Effects.{announced, asking_for, replying};
ghost use Rattle.node.specs.Ready.{WroteAll, AskingFits, Answers, ReplyFits};

use crate::Node;
use config::Config;
use follower::Reply;
use frame::Kind;
use leader::Asking;

// Writes the NEWEPOCH that the pacemaker sends, if it does.
#[tactic(auto, using(wire::proofs::Overlay::over_none), unfolding(crate::specs::Calls::frames_of))]
pub(crate) fn write_announced(
    config: Config,
    sent: Option<u32>,
    outbox: &mut [u8],
    at: usize,
) -> usize
    requires { Fits 1 0 0 outbox.old at }
    ensures { WroteAll config (announced sent) outbox.old at outbox.new result }
{
    match sent {
        None => 0,
        Some(x) => outbox::write_newepoch(outbox, at, config, x),
    }
}

impl Node {
    // Writes what this node's leader asks for, if it does.
    #[tactic(auto, using(wire::proofs::Overlay::over_none), unfolding(crate::specs::Calls::frames_of))]
    pub(crate) fn write_asking(
        self,
        asking: Asking,
        signatures: &[u8],
        outbox: &mut [u8],
        at: usize,
    ) -> usize
        requires { (self.config.n ≤ members) × (signatures_size ≤ length signatures.now) × AskingFits self.config self.leader asking outbox.old at }
        ensures { WroteAll self.config (asking_for self.config self.pace.epoch self.leader signatures.now asking) outbox.old at outbox.new result }
    {
        let config = self.config;
        let epoch = self.pace.epoch;
        let leader = self.leader;
        match asking {
            Asking::Nothing => 0,
            Asking::Observations => {
                outbox::write_observe_req(outbox, at, config, epoch, leader.round)
            }
            Asking::Reports => leader.write_request(config, epoch, signatures, outbox, at),
            Asking::Final => leader.write_final(config, epoch, signatures, outbox, at),
        }
    }
}

// Writes the follower's reply to a body, if it has one.
#[tactic(auto, using(frame::proofs::Checked::checked_length, frame::proofs::Checked::checked_head, follower::proofs::Bodies::checked_attested, wire::proofs::Overlay::over_none), unfolding(frame::specs::Table::body_length, frame::specs::Decode::message_of, crate::specs::Calls::frames_of))]
pub(crate) fn write_reply(
    config: Config,
    reply: Reply,
    observation: i64,
    kind: Kind,
    body: &[u8],
    outbox: &mut [u8],
    at: usize,
) -> usize
    requires { (body_answer config.n (number_of kind) body.now ≡ Done) × Answers reply (number_of kind) × ReplyFits reply body.now outbox.old at }
    ensures { WroteAll config (replying observation (message_of (number_of kind) body.now) reply) outbox.old at outbox.new result }
{
    match reply {
        Reply::Nothing => 0,
        Reply::Observe => outbox::write_observe(
            outbox,
            at,
            config,
            frame::epoch_of(body),
            frame::round_of(body),
            observation,
        ),
        Reply::Report => outbox::write_report(outbox, at, config, body),
        Reply::Echo => outbox::write_final_echo(outbox, at, config, body),
    }
}
