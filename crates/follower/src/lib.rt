// The follower of a reporting round: which of the leader's requests and which reports it takes, and what it does then. It writes the
// kept buffer and no other byte, and answers what is to be sent and what is raised.
#![tactic(auto)]

mod handing;
mod taking;

ghost use Rattle.std.specs.Prelude.{◌≡◌, cond, ◌≤◌, length};
ghost use Rattle.config.specs.Limits.{members, kept_size};
ghost use Rattle.config.specs.Answers.{Done};
ghost use Rattle.frame.specs.Kinds.{number_of};
ghost use Rattle.frame.specs.Decode.{message_of};
ghost use Rattle.frame.specs.Check.{body_answer};
ghost use Rattle.report.specs.Kept.{keeping};
ghost use Rattle.follower.specs.State.{is_set, good_follower, in_round};
ghost use Rattle.follower.specs.Rules.{stays, requested, halts, asked, received, echoed, follow_of, kept_of};

use config::{Commit, Config};
use frame::Kind;
pub use handing::{handed_of, handed_part};
use report::Fault;

// What a follower holds of the round it is in.
#[repr(C)]
#[derive(Clone, Copy)]
pub struct Follower {
    // 1 while a report instance runs: since the last move, unless it halted
    pub live: u8,
    // the round that the leader last asked for; 0 before the first
    pub round: u8,
    // 1 once this node has signed and sent a REPORT in this round
    pub signed: u8,
    // 1 once the round is completed
    pub completed: u8,
    // 1 while the kept buffer holds a report of this round
    pub kept: u8,
    // marks[j - 1]: 1 once member j's FINAL-ECHO of this round has been counted
    pub marks: [u8; Config::MEMBERS],
}

// Why a message is not taken.
#[derive(Clone, Copy, PartialEq, Eq)]
pub enum Objection {
    // its rule's conditions do not hold
    Ignored,
    // they hold, and this is wrong with it
    Wrong(Fault),
}

// What a follower says of a message: that it is taken, or why it is not.
pub type Finding = Result<(), Objection>;

// What a rule has the node send.
#[derive(Clone, Copy)]
pub enum Reply {
    Nothing,
    // the host's observation
    Observe,
    // the list of the REPORT-REQ
    Report,
    // the report that is now kept
    Echo,
}

// What a rule raises for the pacemaker.
#[derive(Clone, Copy)]
pub enum Raised {
    Nothing,
    Progress,
    ChangeLeader,
}

// What a rule did.
#[derive(Clone, Copy)]
pub struct Followed {
    pub follower: Follower,
    pub reply: Reply,
    pub raised: Raised,
    // whether the report is handed out for transmission
    pub handed: bool,
}

// Where the report lies that is handed out: in the kept buffer or in the arriving frame, from `start` on; `len` is 0 where none is.
#[derive(Clone, Copy)]
pub struct Handed {
    // whether it lies in the kept buffer
    pub held: bool,
    pub start: usize,
    pub len: usize,
}

impl Follower {
    // In a round, with nothing marked, signed, completed or kept.
    pub fn in_round(live: u8, round: u8) -> Self
        ensures { result ≡ in_round live round }
    {
        Follower {
            live,
            round,
            signed: 0,
            completed: 0,
            kept: 0,
            marks: [0; Config::MEMBERS],
        }
    }

    // Whether every field is in its range.
    #[tactic(auto, unfolding(crate::specs::State::good_follower))]
    pub fn good(self) -> bool
        ensures { result ≡ good_follower self }
    {
        let marks = self.marks;
        (self.live <= 1)
            & (self.signed <= 1)
            & (self.completed <= 1)
            & (self.kept <= 1)
            & quorum::flags(&marks)
    }

    // Whether a request halts the instance: whoever follows it raises changeleader.
    #[tactic(auto, using(frame::proofs::Numbers::number_low, frame::proofs::Numbers::number_high, frame::proofs::Checked::checked_head, frame::proofs::Messages::by_kind), unfolding(frame::specs::Decode::message_of))]
    pub fn halts(config: Config, kind: Kind, body: &[u8]) -> bool
        requires { body_answer config.n (number_of kind) body.now ≡ Done }
        ensures { result ≡ halts config (message_of (number_of kind) body.now) }
    {
        let kind = kind.number();
        match kind {
            2 => config.r_max < frame::round_of(body),
            _ => false,
        }
    }

    // What a message does that was taken.
    #[tactic(auto, using(frame::proofs::Numbers::number_low, frame::proofs::Numbers::number_high, frame::proofs::Messages::by_kind, frame::proofs::Checked::checked_head, frame::proofs::Checked::checked_report_req, crate::proofs::Bodies::whole_list), unfolding(frame::specs::Decode::message_of))]
    pub fn follow(
        self,
        config: Config,
        j: u8,
        kind: Kind,
        body: &[u8],
        time: u64,
        commit: Commit,
        kept: &mut [u8],
    ) -> Followed
        requires { (body_answer config.n (number_of kind) body.now ≡ Done) × (1 ≤ j) × (j ≤ config.n) × (config.n ≤ members) × (kept_size ≤ length kept.old) }
        ensures { (result ≡ follow_of config self j time commit (message_of (number_of kind) body.now)) × (kept.new ≡ kept_of self kept.old (message_of (number_of kind) body.now)) }
    {
        let kind = kind.number();
        match kind {
            2 => {
                report::clear(kept);
                self.requested(config, frame::round_of(body))
            }
            4 => {
                let median = report::median(body, frame::stride(Kind::ReportReq));
                self.asked(config, time, commit, median)
            }
            6 => {
                report::keep(kept, body);
                self.received()
            }
            7 => {
                keep_unless(self.kept, kept, body);
                self.echoed(config, j)
            }
            _ => self.stays(),
        }
    }

    // The leader asks for observations of a round.
    #[tactic(auto, unfolding(crate::specs::Rules::requested))]
    fn requested(self, config: Config, round: u8) -> Followed
        ensures { result ≡ requested config self round }
    {
        if config.r_max < round {
            return Followed {
                follower: Follower::in_round(0, round),
                reply: Reply::Nothing,
                raised: Raised::ChangeLeader,
                handed: false,
            };
        }
        Followed {
            follower: Follower::in_round(self.live, round),
            reply: Reply::Observe,
            raised: Raised::Nothing,
            handed: false,
        }
    }

    // The leader asks for a list of this median to be signed.
    #[tactic(auto, unfolding(crate::specs::Rules::asked))]
    fn asked(self, config: Config, time: u64, commit: Commit, median: i64) -> Followed
        ensures { result ≡ asked config self time commit median }
    {
        if price::should_report(config, time, commit, median) {
            return Followed {
                follower: Follower { signed: 1, ..self },
                reply: Reply::Report,
                raised: Raised::Nothing,
                handed: false,
            };
        }
        Followed {
            follower: Follower {
                completed: 1,
                ..self
            },
            reply: Reply::Nothing,
            raised: Raised::Progress,
            handed: false,
        }
    }

    // The leader sends a report that stands.
    #[tactic(auto, unfolding(crate::specs::Rules::received))]
    fn received(self) -> Followed
        ensures { result ≡ received self }
    {
        Followed {
            follower: Follower { kept: 1, ..self },
            reply: Reply::Echo,
            raised: Raised::Nothing,
            handed: false,
        }
    }

    // Member j echoes a report that stands.
    #[tactic(auto, unfolding(crate::specs::Rules::echoed))]
    fn echoed(self, config: Config, j: u8) -> Followed
        requires { (1 ≤ j) × (j ≤ config.n) × (config.n ≤ members) }
        ensures { result ≡ echoed config self j }
    {
        let place = j as usize - 1;
        let mut marks = self.marks;
        marks[place] = 1;
        let counted = Follower {
            kept: 1,
            marks,
            ..self
        };
        let reply = echo_unless(self.kept);
        if (config.f as usize) < quorum::count_marks(&marks, config.n as usize) {
            return Followed {
                follower: Follower {
                    completed: 1,
                    ..counted
                },
                reply,
                raised: Raised::Progress,
                handed: true,
            };
        }
        Followed {
            follower: counted,
            reply,
            raised: Raised::Nothing,
            handed: false,
        }
    }

    fn stays(self) -> Followed
        ensures { result ≡ stays self }
    {
        Followed {
            follower: self,
            reply: Reply::Nothing,
            raised: Raised::Nothing,
            handed: false,
        }
    }
}

// Keeps a body, unless a report was kept before.
fn keep_unless(flag: u8, kept: &mut [u8], body: &[u8])
    requires { (length body.now ≤ kept_size) × (kept_size ≤ length kept.old) }
    ensures { kept.new ≡ cond (is_set flag) kept.old (keeping kept.old body.now) }
{
    if flag != 1 {
        report::keep(kept, body);
    }
}

// An echo, unless a report was kept before.
fn echo_unless(kept: u8) -> Reply
    ensures { result ≡ cond (is_set kept) Reply.Nothing Reply.Echo }
{
    if kept == 1 {
        Reply::Nothing
    } else {
        Reply::Echo
    }
}
