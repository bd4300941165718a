// The configuration of a feed, and what every other crate asks about it: limits, codes, times, commits, leaders.
// Tests are joined by `&`: none of them has to wait for another.
#![tactic(auto)]

mod codes;
mod schedule;
mod times;

ghost use Rattle.std.specs.Prelude.{◌≡◌, ◌<◌};
ghost use Rattle.config.specs.Limits.{limits};
ghost use Rattle.config.specs.Bounds.{config_of, good_members, good_own, good_rates, good_feed, good_config};
ghost use Rattle.config.specs.Leader.{leader_of};

pub use codes::{number, of_making};
pub use times::{between, good_time, paired};

// What the members of one feed have agreed on, and which of them this node is.
#[repr(C)]
#[derive(Clone, Copy)]
pub struct Config {
    // which configuration this is; frames carry it and signatures cover it
    pub number: u64,
    // Delta_C: when more milliseconds than this have passed since the commit, a report is due whatever its median
    pub delta_c: u64,
    // Delta_stage: stage k of the senders waits k times so many milliseconds
    pub delta_stage: u64,
    // how far a median may move before a report is due, in parts per billion of the committed one
    pub alpha: u32,
    // how many members there are; they are numbered from 1
    pub n: u8,
    // how many of them may be faulty
    pub f: u8,
    // which member this node is
    pub own: u8,
    // how many rounds an epoch has at the most
    pub r_max: u8,
    // how many stages the schedule has
    pub stages: u8,
    // schedule[k - 1]: how many members send in stage k; places past `stages` are not read
    pub schedule: [u8; Config::STAGES],
}

// The fixed numbers of document 01, "Numbers".
#[repr(C)]
#[derive(Clone, Copy)]
pub struct Limits {
    // the most members a feed can have
    pub members: usize,
    // the last epoch, and the last round of one
    pub epoch: u32,
    pub round: u8,
    // the most that r_max and alpha can be
    pub rounds: u8,
    pub alpha: u32,
    // the last time, the longest stage, the most stages, and how far ahead of the clock a waiting report's time can lie
    pub time: u64,
    pub stage: u64,
    pub stages: usize,
    pub delay: u64,
    // the most that a fee, and all deposits together, can be
    pub fee: u64,
    pub deposits: u64,
    // the bytes that a call needs in the outbox, and that a kept report has
    pub outbox: usize,
    pub kept: usize,
    // the bytes of a signature, where REPORT signatures begin, and the bytes of all signatures
    pub signature: usize,
    pub reports: usize,
    pub signatures: usize,
    // how many reports can wait, and the bytes of all of them
    pub slots: usize,
    pub waiting: usize,
    // the bytes of the epoch program's frame buffer
    pub frame: usize,
}

// The contract's last commit, as the host has read it: epoch and round are both 0 before the first one.
#[repr(C)]
#[derive(Clone, Copy)]
pub struct Commit {
    pub median: i64,
    pub time: u64,
    pub epoch: u32,
    pub round: u8,
}

// What a host saves of a node before any of its frames leave, and restores it from.
#[repr(C)]
#[derive(Clone, Copy)]
pub struct Saved {
    pub epoch: u32,
    // the highest number sent in a NEWEPOCH
    pub highest: u32,
}

// Why a call was refused: the codes of document 01 above 0, in its order; `Refusal::number` gives the number of each.
#[derive(Clone, Copy, PartialEq, Eq)]
pub enum Refusal {
    Ignored,
    State,
    Room,
    Short,
    Version,
    Kind,
    Sender,
    Length,
    Range,
    Proof,
    End,
    Config,
    Old,
    Few,
    Order,
    Twice,
    Signers,
    Funds,
    Similar,
    Queue,
}

// What a call answers: that its rule ran, or why it was refused; nothing but a rule that ran changes anything.
pub type Answer = Result<(), Refusal>;

// What a call has the host do with one of its timers; a running one is restarted by `Start`.
#[derive(Clone, Copy)]
pub enum Timer {
    Leave,
    Start,
    Stop,
}

impl Config {
    pub const MEMBERS: usize = 31;

    pub const LAST_EPOCH: u32 = 4294967295;

    pub const LAST_ROUND: u8 = 255;

    pub const MOST_ROUNDS: u8 = 254;

    pub const MOST_ALPHA: u32 = 1000000000;

    pub const LAST_TIME: u64 = 9007199254740992;

    pub const LONGEST_STAGE: u64 = 86400000;

    pub const STAGES: usize = 8;

    pub const LONGEST_DELAY: u64 = Config::STAGES as u64 * Config::LONGEST_STAGE;

    pub const MOST_FEE: u64 = 1000000000;

    pub const MOST_DEPOSITS: u64 = 9007199254740992;

    pub const OUTBOX: usize = 2400;

    pub const KEPT: usize = 2304;

    pub const SIGNATURE: usize = 64;

    pub const REPORT_SIGNATURES: usize = Config::MEMBERS * Config::SIGNATURE;

    pub const SIGNATURES: usize = 2 * Config::REPORT_SIGNATURES;

    pub const SLOTS: usize = 16;

    pub const WAITING: usize = Config::SLOTS * Config::KEPT;

    pub const FRAME: usize = 4096;

    // The fixed numbers, for a host that has to lay out buffers and states.
    pub fn limits() -> Limits
        ensures { result ≡ limits }
    {
        Limits {
            members: Config::MEMBERS,
            epoch: Config::LAST_EPOCH,
            round: Config::LAST_ROUND,
            rounds: Config::MOST_ROUNDS,
            alpha: Config::MOST_ALPHA,
            time: Config::LAST_TIME,
            stage: Config::LONGEST_STAGE,
            stages: Config::STAGES,
            delay: Config::LONGEST_DELAY,
            fee: Config::MOST_FEE,
            deposits: Config::MOST_DEPOSITS,
            outbox: Config::OUTBOX,
            kept: Config::KEPT,
            signature: Config::SIGNATURE,
            reports: Config::REPORT_SIGNATURES,
            signatures: Config::SIGNATURES,
            slots: Config::SLOTS,
            waiting: Config::WAITING,
            frame: Config::FRAME,
        }
    }

    // A configuration of these numbers, in range or not: whoever makes a state of it tests it.
    pub fn new(
        number: u64,
        n: u8,
        f: u8,
        own: u8,
        r_max: u8,
        alpha: u32,
        delta_c: u64,
        delta_stage: u64,
        stages: u8,
        schedule: [u8; Config::STAGES],
    ) -> Self
        ensures { result ≡ config_of number n f own r_max alpha delta_c delta_stage stages schedule }
    {
        Config {
            number,
            delta_c,
            delta_stage,
            alpha,
            n,
            f,
            own,
            r_max,
            stages,
            schedule,
        }
    }

    // Whether every number of the configuration is in its range.
    #[tactic(auto, unfolding(crate::specs::Bounds::good_config))]
    pub fn good(self) -> bool
        ensures { result ≡ good_config self }
    {
        self.good_feed() & good_own(self.n, self.own)
    }

    // Whether every number that does not depend on which member this is, is in its range.
    #[tactic(auto, unfolding(crate::specs::Bounds::good_feed))]
    pub fn good_feed(self) -> bool
        ensures { result ≡ good_feed self }
    {
        let schedule = self.schedule;
        good_members(self.n, self.f)
            & self.good_rates()
            & schedule::good_schedule(self.n, self.f, self.stages, schedule)
    }

    // Whether r_max, alpha, Delta_C and Delta_stage are in range.
    fn good_rates(self) -> bool
        ensures { result ≡ good_rates self }
    {
        (1 <= self.r_max)
            & (self.r_max <= Config::MOST_ROUNDS)
            & (self.alpha <= Config::MOST_ALPHA)
            & times::good_time(self.delta_c)
            & (self.delta_stage <= Config::LONGEST_STAGE)
    }
}

// Whether a feed can have n members of which f may be faulty.
pub fn good_members(n: u8, f: u8) -> bool
    ensures { result ≡ good_members n f }
{
    (1 <= n) & (n as usize <= Config::MEMBERS) & (3 * (f as usize) < n as usize)
}

// Whether a member of n can have this number.
pub fn good_own(n: u8, own: u8) -> bool
    ensures { result ≡ good_own n own }
{
    (1 <= own) & (own <= n)
}

// The member that leads an epoch of a feed with n members; 0 for epoch 0, which has no leader.
pub fn leader_of(n: u8, epoch: u32) -> u8
    requires { 0 < n }
    ensures { result ≡ leader_of n epoch }
{
    if epoch == 0 {
        return 0;
    }
    (epoch % (n as u32)) as u8 + 1
}
