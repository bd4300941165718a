// Prices: how far one lies from another, whether that is a deviation, whether a report is due, and where the median stands.
#![tactic(auto)]

ghost use Rattle.std.specs.Prelude.{◌≡◌, not, ◌*◌};
ghost use Rattle.std.specs.Int.Signed.{non_neg};
ghost use Rattle.price.specs.Deviation.{distance_of, deviates};
ghost use Rattle.price.specs.Median.{median_place};
ghost use Rattle.price.specs.Due.{should_report};
ghost use Rattle.price.specs.Limbs.{Limbs};

use config::{Commit, Config};

// The parts that alpha counts in.
const BILLION: u32 = 1000000000;

// Whether a median is due for a report: at the first one, on a deviation, or when more than Delta_C has passed since the commit.
#[tactic(auto, unfolding(crate::specs::Due::should_report))]
pub fn should_report(config: Config, time: u64, commit: Commit, median: i64) -> bool
    ensures { result ≡ should_report config time commit median }
{
    commit.none()
        || deviates(config, commit.median, median)
        || config.delta_c < config::between(commit.time, time)
}

// Whether `new` deviates from `old` by more than alpha, exactly: magnitudes are u64, products have two parts.
#[tactic(auto, using(crate::proofs::Limbs::in_order), unfolding(crate::specs::Deviation::deviates))]
pub fn deviates(config: Config, old: i64, new: i64) -> bool
    ensures { result ≡ deviates config old new }
{
    let moved = product(distance(old, new), BILLION);
    let allowed = product(old.unsigned_abs(), config.alpha);
    allowed < moved
}

// |new - old|, which a u64 holds for every pair of i64.
pub fn distance(old: i64, new: i64) -> u64
    ensures { result ≡ distance_of old new }
{
    let a = old.unsigned_abs();
    let b = new.unsigned_abs();
    if negative(old) == negative(new) {
        a.abs_diff(b)
    } else {
        a + b
    }
}

fn negative(x: i64) -> bool
    ensures { result ≡ not (non_neg x) }
{
    x < 0
}

// A number of up to 96 bits, high * 2^32 + low. The order of two is that of their upper parts, and then of their lower ones.
#[derive(Clone, Copy, PartialEq, Eq, PartialOrd, Ord)]
struct Wide {
    high: u64,
    low: u32,
}

// The whole product of a and k.
#[tactic(auto, using(crate::proofs::Limbs::split_32))]
fn product(a: u64, k: u32) -> Wide
    ensures { Limbs result.high result.low (a * k) }
{
    let f = u64::from(k);
    let low = a % 4294967296 * f;
    Wide {
        high: a / 4294967296 * f + low / 4294967296,
        low: (low % 4294967296) as u32,
    }
}

// The place of the median in a list of m observations.
pub fn median_place(m: usize) -> usize
    ensures { result ≡ median_place m }
{
    m / 2
}
