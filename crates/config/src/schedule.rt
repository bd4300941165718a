// The schedule: how many members send in each stage.
ghost use Rattle.std.specs.Prelude.{◌≡◌, ◌≤◌, length};
ghost use Rattle.config.specs.Limits.{most_stages};
ghost use Rattle.config.specs.Bounds.{none_empty, sum, good_schedule};

use crate::Config;

// Whether the first `count` places are a schedule for n members of which f may be faulty.
pub(crate) fn good_schedule(n: u8, f: u8, count: u8, schedule: [u8; Config::STAGES]) -> bool
    ensures { result ≡ good_schedule n f count schedule }
{
    let stages = count as usize;
    if Config::STAGES < stages {
        return false;
    }
    let used = &schedule[..stages];
    let senders = sum_of(used);
    (1 <= stages) & none_empty(used) & ((f as usize) < senders) & (senders <= n as usize)
}

// Whether each stage has a member.
#[tactic(auto, using(crate::proofs::Stages::each_is_some, crate::proofs::Stages::one_is_empty))]
fn none_empty(schedule: &[u8]) -> bool
    ensures { result ≡ none_empty schedule.now }
{
    schedule.iter().all(|members| 1 <= *members)
}

// How many members the stages have together.
#[tactic(auto, using(crate::proofs::Stages::sum_is))]
fn sum_of(schedule: &[u8]) -> usize
    requires { length schedule.now ≤ most_stages }
    ensures { result ≡ sum schedule.now }
{
    schedule.iter().map(|members| usize::from(*members)).sum()
}
