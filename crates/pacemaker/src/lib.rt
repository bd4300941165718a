// The pacemaker: which epoch a node works in, and the NEWEPOCH messages by which the members agree on it.
// It writes no byte: a rule answers what is sent, and whoever called it writes the frame.
#![tactic(auto)]

ghost use Rattle.std.specs.Prelude.{◌≡◌, ◌≤◌, ◌<◌, max, take};
ghost use Rattle.config.specs.Limits.{members, last_epoch};
ghost use Rattle.quorum.specs.Counts.{count_above, reached};
ghost use Rattle.pacemaker.specs.State.{restored_pace, good_pace};
ghost use Rattle.pacemaker.specs.Rules.{stays, with_progress, sending, entering, start_of, may_start, resend_of, fires_resend, change_leader_of, fires_progress, past_end, progress_of, hearing, amplifying, moving, new_epoch_of};

use config::{Config, Saved, Timer};

// What a node knows of epochs.
#[repr(C)]
#[derive(Clone, Copy)]
pub struct Pace {
    // the epoch this node works in; 0 before its first move
    pub epoch: u32,
    // the highest number this node has sent in a NEWEPOCH; never below epoch
    pub highest: u32,
    // heard[j - 1]: the highest number that member j has sent; places past the last member are never counted
    pub heard: [u32; Config::MEMBERS],
    // 1 once the host has started the node, 0 before
    pub started: u8,
    // 1 while T_progress is armed: it fires when the leader makes no progress
    pub progress: u8,
    // 1 while T_resend is armed: it fires when highest is to be sent again
    pub resend: u8,
}

// What a rule did.
#[derive(Clone, Copy)]
pub struct Paced {
    pub pace: Pace,
    // the number of the NEWEPOCH that the node sends; none where it sends nothing
    pub sent: Option<u32>,
    // what becomes of T_progress and of T_resend
    pub progress: Timer,
    pub resend: Timer,
    // whether the node moved to a new epoch
    pub moved: bool,
}

impl Pace {
    pub fn restored(saved: Saved) -> Self
        ensures { result ≡ restored_pace saved }
    {
        Pace {
            epoch: saved.epoch,
            highest: saved.highest,
            heard: [0; Config::MEMBERS],
            started: 0,
            progress: 0,
            resend: 0,
        }
    }

    // Whether every field is in its range.
    #[tactic(auto, unfolding(crate::specs::State::good_pace))]
    pub fn good(self) -> bool
        ensures { result ≡ good_pace self }
    {
        (self.epoch <= self.highest)
            & (self.started <= 1)
            & (self.progress <= 1)
            & (self.resend <= 1)
    }

    // Whether Start is due: it has not come yet.
    pub fn may_start(self) -> bool
        ensures { result ≡ may_start self }
    {
        self.started != 1
    }

    // Whether T_resend may fire.
    pub fn fires_resend(self) -> bool
        ensures { result ≡ fires_resend self }
    {
        (self.started == 1) & (self.resend == 1) & (0 < self.highest)
    }

    // Whether T_progress may fire.
    pub fn fires_progress(self) -> bool
        ensures { result ≡ fires_progress self }
    {
        (self.started == 1) & (self.progress == 1)
    }

    // Whether changing the leader would lead past the last epoch.
    pub fn past_end(self) -> bool
        ensures { result ≡ past_end self }
    {
        Config::LAST_EPOCH <= self.epoch
    }

    // The host starts the node.
    #[tactic(auto, unfolding(crate::specs::Rules::start_of))]
    pub fn start(self) -> Paced
        ensures { result ≡ start_of self }
    {
        let p = Pace {
            started: 1,
            ..with_progress(self, 1)
        };
        Paced {
            progress: Timer::Start,
            ..sending(p, self.highest.max(1))
        }
    }

    // T_resend fires.
    #[tactic(auto, unfolding(crate::specs::Rules::resend_of))]
    pub fn send_again(self) -> Paced
        ensures { result ≡ resend_of self }
    {
        sending(self, self.highest)
    }

    // T_progress fires, or a round asks for another leader.
    #[tactic(auto, unfolding(crate::specs::Rules::change_leader_of))]
    pub fn change_leader(self) -> Paced
        requires { self.epoch < last_epoch }
        ensures { result ≡ change_leader_of self }
    {
        let p = with_progress(self, 0);
        Paced {
            progress: Timer::Stop,
            ..sending(p, self.highest.max(self.epoch + 1))
        }
    }

    // A round has made progress.
    #[tactic(auto, unfolding(crate::specs::Rules::progress_of))]
    pub fn made_progress(self) -> Paced
        ensures { result ≡ progress_of self }
    {
        let p = with_progress(self, 1);
        Paced {
            progress: Timer::Start,
            ..stays(p)
        }
    }

    // NEWEPOCH x has come from member j.
    #[tactic(auto, unfolding(crate::specs::Rules::new_epoch_of))]
    pub fn new_epoch(self, n: u8, f: u8, j: u8, x: u32) -> Paced
        requires { (1 ≤ j) × (j ≤ n) × (n ≤ members) }
        ensures { result ≡ new_epoch_of n f self j x }
    {
        let amplified = self.hear(j, x).amplify(n, f);
        let moved = amplified.pace.move_on(n, f);
        Paced {
            sent: amplified.sent,
            resend: amplified.resend,
            ..moved
        }
    }

    // Member j has sent x.
    #[tactic(auto, unfolding(crate::specs::Rules::hearing))]
    pub fn hear(self, j: u8, x: u32) -> Pace
        requires { (1 ≤ j) × (j ≤ members) }
        ensures { result ≡ hearing self j x }
    {
        let place = usize::from(j) - 1;
        let mut heard = self.heard;
        heard[place] = heard[place].max(x);
        Pace { heard, ..self }
    }

    // Sends what more than f members have reached, where more than f are ahead of what this node has sent.
    #[tactic(auto, unfolding(crate::specs::Rules::amplifying))]
    pub fn amplify(self, n: u8, f: u8) -> Paced
        requires { n ≤ members }
        ensures { result ≡ amplifying n f self }
    {
        let more = usize::from(f);
        if more < count_above(self.heard, n, self.highest) {
            return sending(self, reached(self.heard, n, more));
        }
        stays(self)
    }

    // Moves to what more than 2f members have reached, where more than 2f are ahead of this node's epoch.
    #[tactic(auto, unfolding(crate::specs::Rules::moving))]
    pub fn move_on(self, n: u8, f: u8) -> Paced
        requires { n ≤ members }
        ensures { result ≡ moving n f self }
    {
        let more = 2 * usize::from(f);
        if more < count_above(self.heard, n, self.epoch) {
            return in_epoch(self, reached(self.heard, n, more));
        }
        stays(self)
    }
}

// Nothing is sent and no timer changes.
pub fn stays(p: Pace) -> Paced
    ensures { result ≡ stays p }
{
    Paced {
        pace: p,
        sent: None,
        progress: Timer::Leave,
        resend: Timer::Leave,
        moved: false,
    }
}

// T_progress is armed (1), or not (0).
fn with_progress(p: Pace, armed: u8) -> Pace
    ensures { result ≡ with_progress p armed }
{
    Pace {
        progress: armed,
        ..p
    }
}

// NEWEPOCH x is sent.
fn sending(p: Pace, x: u32) -> Paced
    ensures { result ≡ sending p x }
{
    let pace = Pace {
        highest: x,
        resend: 1,
        ..p
    };
    Paced {
        sent: Some(x),
        resend: Timer::Start,
        ..stays(pace)
    }
}

// The node begins epoch e.
fn in_epoch(p: Pace, e: u32) -> Paced
    ensures { result ≡ entering p e }
{
    let pace = Pace {
        epoch: e,
        highest: p.highest.max(e),
        progress: 1,
        ..p
    };
    Paced {
        progress: Timer::Start,
        moved: true,
        ..stays(pace)
    }
}

// How many of the n members have sent more than x.
fn count_above(heard: [u32; Config::MEMBERS], n: u8, x: u32) -> usize
    requires { n ≤ members }
    ensures { result ≡ count_above x (take n heard) }
{
    quorum::count_above(&heard[..usize::from(n)], x)
}

// The largest number that more than k of the n members have reached.
fn reached(heard: [u32; Config::MEMBERS], n: u8, k: usize) -> u32
    requires { n ≤ members }
    ensures { result ≡ reached k (take n heard) }
{
    quorum::reached(&heard[..usize::from(n)], k)
}
