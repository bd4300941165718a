// The node: the calls that a host makes of it. Each call checks, then runs its rule; the rules are the pacemaker's, the follower's and the leader's, and here they are put together.
#![tactic(auto)]

mod answers;
mod rules;
mod writing;

ghost use Rattle.std.specs.Prelude.{◌≡◌};
ghost use Rattle.node.specs.Event.{delivery_of, starts, delivers, fires, Names};
ghost use Rattle.node.specs.Effects.{nothing_handed};
ghost use Rattle.node.specs.Calls.{restore_of, fresh_of, out, refusing, doing, call_of, unarmed_of};

use config::{Answer, Commit, Config, Saved, Timer};
use follower::{Follower, Handed};
use leader::Leader;
use pacemaker::Pace;

#[repr(C)]
#[derive(Clone, Copy)]
pub struct Node {
    // what the members have agreed on; no call changes it
    pub config: Config,
    // which epoch this node works in, and the NEWEPOCH numbers sent and heard
    pub pace: Pace,
    // what it holds of the round that it follows
    pub follower: Follower,
    // what it holds of the round that it leads
    pub leader: Leader,
}

// Which timer has fired.
#[derive(Clone, Copy)]
pub enum Fired {
    Resend,
    Progress,
    Round,
    Grace,
}

// A number that names none of the four timers.
#[derive(Clone, Copy, PartialEq, Eq)]
pub struct NoTimer;

impl TryFrom<u8> for Fired {
    type Error = NoTimer;

    ghost try_from_gives = { Names };

    fn try_from(number: u8) -> Result<Self, NoTimer> {
        match number {
            0 => Ok(Fired::Resend),
            1 => Ok(Fired::Progress),
            2 => Ok(Fired::Round),
            3 => Ok(Fired::Grace),
            _ => Err(NoTimer),
        }
    }
}

// A frame that has come over the link of a member, and what the host says with it.
#[derive(Clone, Copy)]
pub struct Arrival<'a> {
    pub link: u8,
    pub time: u64,
    // the host's own observation
    pub observation: i64,
    // the contract's last commit
    pub commit: Commit,
    // verdict bits of the signatures in the frame
    pub bits: u64,
    pub frame: &'a [u8],
}

// What becomes of each timer.
#[derive(Clone, Copy)]
pub struct Timers {
    pub resend: Timer,
    pub progress: Timer,
    pub round: Timer,
    pub grace: Timer,
}

impl Timers {
    // Every timer is left alone.
    const LEAVE: Timers = Timers {
        resend: Timer::Leave,
        progress: Timer::Leave,
        round: Timer::Leave,
        grace: Timer::Leave,
    };
}

// What making a node came to. Where the answer is not DONE the node is of no use: each call of it answers STATE.
#[derive(Clone, Copy)]
pub struct Made {
    pub answer: Answer,
    pub node: Node,
}

// What a call came to.
#[derive(Clone, Copy)]
pub struct Outcome {
    pub answer: Answer,
    pub node: Node,
    // how many bytes of frames stand in the outbox, from the position on
    pub written: usize,
    pub timers: Timers,
    // where the report lies that is handed out for transmission
    pub handed: Handed,
}

impl Node {
    // A node that has heard and sent nothing.
    #[tactic(auto, unfolding(crate::specs::Calls::fresh_of))]
    pub fn fresh(config: Config) -> Made
        ensures { result ≡ fresh_of config }
    {
        Node::restore(
            config,
            Saved {
                epoch: 0,
                highest: 0,
            },
        )
    }

    // A node as it was saved; it joins no report instance before it moves to a higher epoch.
    #[tactic(auto, unfolding(crate::specs::Calls::restore_of))]
    pub fn restore(config: Config, saved: Saved) -> Made
        ensures { result ≡ restore_of config saved }
    {
        let node = Node {
            config,
            pace: Pace::restored(saved),
            follower: Follower::in_round(0, 0),
            leader: Leader::none(),
        };
        Made {
            answer: answers::restore_answer(config, saved),
            node,
        }
    }

    // The host starts the node.
    #[tactic(auto, using(crate::proofs::Ready::with_room), unfolding(frame::specs::Table::body_length, crate::specs::Calls::called))]
    pub fn start(
        self,
        time: u64,
        outbox: &mut [u8],
        at: usize,
        kept: &[u8],
        signatures: &[u8],
    ) -> Outcome
        ensures { out result outbox.new kept.now signatures.now ≡ call_of self (starts time) outbox.old at kept.now signatures.now }
    {
        let room = answers::roomy(outbox.len(), at, kept.len(), signatures.len());
        let answer = self.after_state(room, kept, self.start_answer(time));
        if answer.is_ok() {
            return self.pacing(self.pace.start(), outbox, at);
        }
        self.refusing(answer)
    }

    // A frame has come over the link of a member.
    #[tactic(auto, using(crate::proofs::Ready::ready_delivery), unfolding(crate::specs::Calls::called))]
    pub fn deliver(
        self,
        arrival: Arrival<'_>,
        outbox: &mut [u8],
        at: usize,
        kept: &mut [u8],
        signatures: &mut [u8],
    ) -> Outcome
        ensures { out result outbox.new kept.new signatures.new ≡ call_of self (delivers (delivery_of arrival.entry)) outbox.old at kept.old signatures.old }
    {
        let room = answers::roomy(outbox.len(), at, kept.len(), signatures.len());
        let answer = self.delivery_answer(arrival, room, &kept[..]);
        if answer.is_ok() {
            return self.delivering(arrival, outbox, at, kept, signatures);
        }
        self.refusing(answer)
    }

    // A timer has fired.
    #[tactic(auto, using(crate::proofs::Ready::ready_timer), unfolding(crate::specs::Calls::called))]
    pub fn timer(
        self,
        fired: Fired,
        time: u64,
        outbox: &mut [u8],
        at: usize,
        kept: &[u8],
        signatures: &mut [u8],
    ) -> Outcome
        ensures { out result outbox.new kept.now signatures.new ≡ call_of self (fires fired time) outbox.old at kept.now signatures.old }
    {
        let room = answers::roomy(outbox.len(), at, kept.len(), signatures.len());
        let answer = self.timer_answer(fired, time, room, kept);
        if answer.is_ok() {
            return self.timing(fired, outbox, at, signatures);
        }
        self.refusing(answer)
    }

    // A timer that is none of the four has fired; it is never armed.
    pub fn unarmed(
        self,
        time: u64,
        outbox: &[u8],
        at: usize,
        kept: &[u8],
        signatures: &[u8],
    ) -> Outcome
        ensures { out result outbox.now kept.now signatures.now ≡ unarmed_of self time outbox.now at kept.now signatures.now }
    {
        let room = answers::roomy(outbox.len(), at, kept.len(), signatures.len());
        self.refusing(self.after_state(room, kept, answers::unarmed_answer(time)))
    }

    // What a refusal answers.
    fn refusing(self, answer: Answer) -> Outcome
        ensures { result ≡ refusing answer self }
    {
        Outcome {
            answer,
            node: self,
            written: 0,
            timers: Timers::LEAVE,
            handed: self.nothing_handed(),
        }
    }

    // What a rule answers that ran, and left this node.
    fn doing(self, written: usize, timers: Timers, handed: Handed) -> Outcome
        ensures { result ≡ doing self written timers handed }
    {
        Outcome {
            answer: Ok(()),
            node: self,
            written,
            timers,
            handed,
        }
    }

    fn nothing_handed(self) -> Handed
        ensures { result ≡ nothing_handed self }
    {
        Handed {
            held: self.follower.kept == 1,
            start: 0,
            len: 0,
        }
    }
}
