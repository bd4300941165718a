// What an event does that was not refused: the rules of the pacemaker, the follower and the leader, put together.
ghost use Rattle.std.specs.Prelude.{◌≡◌, true, false, List, ℕ, ◌+◌, ◌≤◌, ◌<◌, length};
ghost use Rattle.config.specs.Limits.{last_epoch, outbox_size, kept_size, signatures_size};
ghost use Rattle.config.specs.Bounds.{good_config};
ghost use Rattle.frame.specs.Kinds.{number_of};
ghost use Rattle.frame.specs.Decode.{message_of, message_in};
ghost use Rattle.outbox.specs.Written.{Fits};
ghost use Rattle.leader.specs.Rules.{no_signatures};
ghost use Rattle.node.specs.Event.{whole, delivery_of};
ghost use Rattle.node.specs.Answers.{ending};
ghost use Rattle.node.specs.Effects.{raising, begun, pacing, moving, hearing, following, paced_timers, led_timers, moved_timers, leading, led_by, delivering, timing};
ghost use Rattle.node.specs.Calls.{out, settled};
ghost use Rattle.node.specs.Ready.{Room, Sound, Taken};

use crate::{Arrival, Fired, Node, Outcome, Timers, writing};
use config::{Config, Timer};
use follower::{Follower, Raised};
use frame::Kind;
use leader::{Asking, Leader, Led};
use pacemaker::{Pace, Paced};

impl Node {
    // By the message's kind: the pacemaker's, the leader's or the follower's.
    #[tactic(auto, using(frame::proofs::Framed::checked_frame, frame::proofs::Checked::checked_newepoch, crate::proofs::Ready::sound_frame), unfolding(frame::specs::Decode::message_of))]
    pub(crate) fn delivering(
        self,
        arrival: Arrival<'_>,
        outbox: &mut [u8],
        at: usize,
        kept: &mut [u8],
        signatures: &mut [u8],
    ) -> Outcome
        requires { Taken self arrival.link arrival.frame.now kept.old × Room outbox.old at kept.old signatures.old }
        ensures { out result outbox.new kept.new signatures.new ≡ settled (delivering (whole self kept.old signatures.old) (delivery_of arrival.entry) (message_in arrival.entry.frame.now)) outbox.old at }
    {
        let kind = frame::known_kind(arrival.frame);
        let body = frame::body_of(arrival.frame);
        let link = arrival.link;
        let number = kind.number();
        match number {
            1 => self.hearing(link, frame::epoch_of(body), outbox, at, kept, signatures),
            3 | 5 => self.led_by(link, kind, body, outbox, at, signatures),
            _ => self.following(arrival, outbox, at, kept),
        }
    }

    // NEWEPOCH x from member j.
    #[tactic(auto, using(crate::proofs::Ready::members_most), unfolding(frame::specs::Table::body_length, crate::specs::Effects::hearing, crate::specs::Effects::moving, crate::specs::Effects::pacing))]
    fn hearing(
        self,
        j: u8,
        x: u32,
        outbox: &mut [u8],
        at: usize,
        kept: &mut [u8],
        signatures: &mut [u8],
    ) -> Outcome
        requires { (good_config self.config ≡ true) × (1 ≤ j) × (j ≤ self.config.n) × Room outbox.old at kept.old signatures.old }
        ensures { out result outbox.new kept.new signatures.new ≡ settled (hearing (whole self kept.old signatures.old) j x) outbox.old at }
    {
        let paced = self.pace.new_epoch(self.config.n, self.config.f, j, x);
        if paced.moved {
            return self.moving(paced, outbox, at, kept, signatures);
        }
        self.pacing(paced, outbox, at)
    }

    // An event of the pacemaker alone.
    pub(crate) fn pacing(self, paced: Paced, outbox: &mut [u8], at: usize) -> Outcome
        requires { Fits 1 0 0 outbox.old at }
        ensures { (kept signatures : List ℕ) → out result outbox.new kept signatures ≡ settled (pacing (whole self kept signatures) paced) outbox.old at }
    {
        let written = writing::write_announced(self.config, paced.sent, outbox, at);
        let node = Node {
            pace: paced.pace,
            ..self
        };
        node.doing(written, paced_timers(paced), self.nothing_handed())
    }

    // The node moves to a new epoch: a fresh report instance begins, and its leader's first round.
    #[tactic(auto, using(crate::proofs::Ready::members_some, crate::proofs::Ready::members_most, crate::proofs::Frames::announced_long, crate::proofs::Frames::asking_fits, crate::proofs::Frames::begun_long), unfolding(frame::specs::Table::body_length))]
    fn moving(
        self,
        paced: Paced,
        outbox: &mut [u8],
        at: usize,
        kept: &mut [u8],
        signatures: &mut [u8],
    ) -> Outcome
        requires { (good_config self.config ≡ true) × Room outbox.old at kept.old signatures.old }
        ensures { out result outbox.new kept.new signatures.new ≡ settled (moving (whole self kept.old signatures.old) paced) outbox.old at }
    {
        report::clear(kept);
        let led = begun(self.config, paced.pace.epoch, signatures);
        let node = Node {
            config: self.config,
            pace: paced.pace,
            follower: Follower::in_round(1, 0),
            leader: led.leader,
        };
        let first = writing::write_announced(self.config, paced.sent, outbox, at);
        let second = node.write_asking(led.asking, &signatures[..], outbox, at + first);
        node.doing(
            first + second,
            moved_timers(paced, led),
            self.nothing_handed(),
        )
    }

    // A message of the follower's, with what it raises.
    #[tactic(auto, using(frame::proofs::Framed::checked_frame, crate::proofs::Ready::members_most, crate::proofs::Ready::sound_frame, crate::proofs::Frames::announced_long, crate::proofs::Followed::leader_changes), unfolding(frame::specs::Table::body_length))]
    fn following(
        self,
        arrival: Arrival<'_>,
        outbox: &mut [u8],
        at: usize,
        kept: &mut [u8],
    ) -> Outcome
        requires { Taken self arrival.link arrival.frame.now kept.old × (at + outbox_size ≤ length outbox.old) × (kept_size ≤ length kept.old) }
        ensures { (signatures : List ℕ) → out result outbox.new kept.new signatures ≡ settled (following (whole self kept.old signatures) (delivery_of arrival.entry) (message_in arrival.entry.frame.now)) outbox.old at }
    {
        let config = self.config;
        let held = self.follower.kept;
        let kind = frame::known_kind(arrival.frame);
        let body = frame::body_of(arrival.frame);
        let followed = self.follower.follow(
            config,
            arrival.link,
            kind,
            body,
            arrival.time,
            arrival.commit,
            kept,
        );
        let handed = follower::handed_of(followed.handed, held, &kept[..], body);
        let paced = raising(followed.raised, self.pace);
        let announced = writing::write_announced(config, paced.sent, outbox, at);
        let replied = writing::write_reply(
            config,
            followed.reply,
            arrival.observation,
            kind,
            body,
            outbox,
            at + announced,
        );
        let node = Node {
            pace: paced.pace,
            follower: followed.follower,
            ..self
        };
        node.doing(announced + replied, paced_timers(paced), handed)
    }

    // A message of the leader's.
    #[tactic(auto, using(crate::proofs::Ready::members_most))]
    fn led_by(
        self,
        j: u8,
        kind: Kind,
        body: &[u8],
        outbox: &mut [u8],
        at: usize,
        signatures: &mut [u8],
    ) -> Outcome
        requires { Sound self.config j (number_of kind) body.now × (at + outbox_size ≤ length outbox.old) × (signatures_size ≤ length signatures.old) }
        ensures { (kept : List ℕ) → out result outbox.new kept signatures.new ≡ settled (led_by (whole self kept signatures.old) j (message_of (number_of kind) body.now)) outbox.old at }
    {
        let led = self.leader.lead(self.config, j, kind, body, signatures);
        self.leading(led, outbox, at, &signatures[..])
    }

    // What the leader's rule came to, and the frame that it sends.
    #[tactic(auto, using(crate::proofs::Ready::members_most, crate::proofs::Frames::asking_fits))]
    fn leading(self, led: Led, outbox: &mut [u8], at: usize, signatures: &[u8]) -> Outcome
        requires { (good_config self.config ≡ true) × (at + outbox_size ≤ length outbox.old) × (signatures_size ≤ length signatures.now) }
        ensures { (kept before : List ℕ) → out result outbox.new kept signatures.now ≡ settled (leading (whole self kept before) led signatures.now) outbox.old at }
    {
        let node = Node {
            leader: led.leader,
            ..self
        };
        let written = node.write_asking(led.asking, signatures, outbox, at);
        node.doing(written, led_timers(led), self.nothing_handed())
    }

    // A timer's rule.
    #[tactic(auto, unfolding(frame::specs::Table::body_length, crate::specs::Answers::ending))]
    pub(crate) fn timing(
        self,
        fired: Fired,
        outbox: &mut [u8],
        at: usize,
        signatures: &mut [u8],
    ) -> Outcome
        requires { (good_config self.config ≡ true) × (ending self fired ≡ false) × (at + outbox_size ≤ length outbox.old) × (signatures_size ≤ length signatures.old) }
        ensures { (kept : List ℕ) → out result outbox.new kept signatures.new ≡ settled (timing (whole self kept signatures.old) fired) outbox.old at }
    {
        match fired {
            Fired::Resend => self.pacing(self.pace.send_again(), outbox, at),
            Fired::Progress => self.pacing(self.pace.change_leader(), outbox, at),
            Fired::Round => {
                let led = self.leader.next_round(self.config, signatures);
                self.leading(led, outbox, at, &signatures[..])
            }
            Fired::Grace => self.leading(self.leader.close(), outbox, at, &signatures[..]),
        }
    }
}

// What a follower's rule raises, run in the same call.
fn raising(raised: Raised, pace: Pace) -> Paced
    requires { raised ≡ Raised.ChangeLeader → pace.epoch < last_epoch }
    ensures { result ≡ raising raised pace }
{
    match raised {
        Raised::Nothing => pacemaker::stays(pace),
        Raised::Progress => pace.made_progress(),
        Raised::ChangeLeader => pace.change_leader(),
    }
}

// What a fresh instance of an epoch has of its leader: round 1, where this node is that.
#[tactic(auto, unfolding(crate::specs::Effects::begun))]
fn begun(config: Config, epoch: u32, signatures: &mut [u8]) -> Led
    requires { (0 < config.n) × (signatures_size ≤ length signatures.old) }
    ensures { (result ≡ begun config epoch) × (signatures.new ≡ no_signatures signatures.old) }
{
    if config.own == config::leader_of(config.n, epoch) {
        return Leader::none().next_round(config, signatures);
    }
    wire::zero(signatures, 0, Config::SIGNATURES);
    Led {
        leader: Leader::none(),
        asking: Asking::Nothing,
        t_round: Timer::Stop,
        t_grace: Timer::Stop,
    }
}

fn paced_timers(paced: Paced) -> Timers
    ensures { result ≡ paced_timers paced }
{
    Timers {
        resend: paced.resend,
        progress: paced.progress,
        ..Timers::LEAVE
    }
}

fn led_timers(led: Led) -> Timers
    ensures { result ≡ led_timers led }
{
    Timers {
        round: led.t_round,
        grace: led.t_grace,
        ..Timers::LEAVE
    }
}

fn moved_timers(paced: Paced, fresh: Led) -> Timers
    ensures { result ≡ moved_timers paced fresh }
{
    Timers {
        round: fresh.t_round,
        grace: fresh.t_grace,
        ..paced_timers(paced)
    }
}
