// Checks 4 to 9 of a frame, and those of a body alone.
ghost use Rattle.std.specs.Prelude.{◌≡◌, not, cond, ◌&&◌, ◌+◌, ◌*◌, ◌≤◌, ◌<◌, length, get_or, drop};
ghost use Rattle.config.specs.Answers.{Done, Range};
ghost use Rattle.frame.specs.Table.{body_length, trailer_length};
ghost use Rattle.frame.specs.Kinds.{number_of};
ghost use Rattle.frame.specs.Decode.{entries, epoch_in, round_in, count_in, list_place, observations_in, list_end, signer_count_in, signers_in, attested_in, Readable};
ghost use Rattle.frame.specs.Range.{good_epoch, good_round, all_members, good_observations, good_signers, good_attested};
ghost use Rattle.frame.specs.Check.{body_answer, other_sender, other_feed, frame_answer};

use crate::{Kind, LIST, TRAILER, reading};
use config::{Answer, Config, Refusal};

// Checks 4 to 9: what is wrong with a frame that came over the link of member `link`, in a feed of n members with this
// configuration number. `Ok` where nothing is.
#[tactic(auto, using(crate::proofs::Checks::start_at, crate::proofs::Checks::short_frame, crate::proofs::Checks::another_feed, crate::proofs::Checks::no_kind, crate::proofs::Checks::another_sender, crate::proofs::Checks::bytes_before, crate::proofs::Checks::whole_frame))]
pub fn check(frame: &[u8], n: u8, number: u64, link: u8) -> Answer
    ensures { result ≡ frame_answer frame.now n number link }
{
    let start = reading::body_start(frame).ok_or(Refusal::Short)?;
    let end = frame.len() - TRAILER;
    if other_feed(frame, n, number) {
        return Err(Refusal::Version);
    }
    let kind = Kind::try_from(frame[end])?;
    if other_sender(frame[end + 1], n, link) {
        return Err(Refusal::Sender);
    }
    if start != 0 {
        return Err(Refusal::Length);
    }
    check_body(kind, &frame[start..end], n)
}

// The test of VERSION, on a trailer that is there: SHORT comes first.
fn other_feed(frame: &[u8], n: u8, number: u64) -> bool
    requires { trailer_length ≤ length frame.now }
    ensures { result ≡ other_feed frame.now n number }
{
    let end = frame.len() - TRAILER;
    let other_version = wire::read::<u16>(frame, end + 2) != crate::version(n);
    let other_number = wire::read::<u64>(frame, end + 8) != number;
    other_version | other_number
}

// The test of SENDER. Nothing is asked of the link, so that 0 and above n are tests of their own.
fn other_sender(sender: u8, n: u8, link: u8) -> bool
    ensures { result ≡ other_sender sender n link }
{
    (sender == 0) | (n < sender) | (sender != link)
}

// LENGTH and RANGE of a body, by the reader of its kind.
#[tactic(auto, unfolding(crate::specs::Check::body_answer, crate::specs::Table::body_length, crate::specs::Decode::message_of))]
pub fn check_body(kind: Kind, body: &[u8], n: u8) -> Answer
    ensures { result ≡ body_answer n (number_of kind) body.now }
{
    match kind {
        Kind::NewEpoch | Kind::ObserveReq | Kind::Observe => check_bare(kind, body, n),
        Kind::ReportReq | Kind::Report => check_listed(kind, body, n),
        Kind::Final | Kind::FinalEcho => check_final(body, n),
    }
}

// The kinds that list nothing.
#[tactic(auto, using(crate::proofs::Checks::other_length, crate::proofs::Checks::own_length), unfolding(crate::specs::Table::body_length, crate::specs::Decode::message_of))]
fn check_bare(kind: Kind, body: &[u8], n: u8) -> Answer
    requires { number_of kind ≤ 3 }
    ensures { result ≡ body_answer n (number_of kind) body.now }
{
    if body.len() != crate::body_length(kind, 0, 0) {
        return Err(Refusal::Length);
    }
    ranged(match kind {
        Kind::NewEpoch => good_epoch(reading::epoch_of(body)),
        _ => good_head(body),
    })
}

// The kinds that list observations and no signers.
#[tactic(auto, using(crate::proofs::Checked::good_said, crate::proofs::Checks::other_length, crate::proofs::Checks::own_length), unfolding(crate::specs::Table::body_length, crate::specs::Decode::message_of))]
fn check_listed(kind: Kind, body: &[u8], n: u8) -> Answer
    requires { (4 ≤ number_of kind) × (number_of kind ≤ 5) }
    ensures { result ≡ body_answer n (number_of kind) body.now }
{
    if body.len() < LIST {
        return Err(Refusal::Length);
    }
    let length = crate::body_length(kind, reading::count_of(body), 0);
    if body.len() != length {
        return Err(Refusal::Length);
    }
    ranged(good_head(body) & good_list(body, crate::stride(kind), n))
}

// Also the body alone, as sender and contract are given it.
#[tactic(auto, using(crate::proofs::Readable::readable_exact, crate::proofs::Checks::other_length, crate::proofs::Checks::own_length), unfolding(crate::specs::Table::body_length, crate::specs::Decode::message_of))]
pub fn check_final(body: &[u8], n: u8) -> Answer
    ensures { result ≡ body_answer n 6 body.now }
{
    if body.len() < LIST {
        return Err(Refusal::Length);
    }
    if body.len() <= reading::list_end(body) {
        return Err(Refusal::Length);
    }
    if body.len() != reading::final_length(body) {
        return Err(Refusal::Length);
    }
    ranged(good_attested(body, n))
}

fn ranged(good: bool) -> Answer
    ensures { result ≡ cond (not good) Range Done }
{
    if good { Ok(()) } else { Err(Refusal::Range) }
}

// Whether the FINAL body at the start of a slice is in range. Beyond m and s no more is read than a body in range has.
#[tactic(auto, using(crate::proofs::Access::many_refused), unfolding(crate::specs::Table::shape_of))]
pub fn good_attested(b: &[u8], n: u8) -> bool
    requires { Readable n b.now }
    ensures { result ≡ good_attested n (attested_in b.now) }
{
    if (n as usize) < reading::count_of(b) {
        return false;
    }
    if (n as usize) < reading::signer_count(b) {
        return false;
    }
    good_head(b) & good_list(b, crate::stride(Kind::Final), n) & good_signers(b, n)
}

fn good_epoch(epoch: u32) -> bool
    ensures { result ≡ good_epoch epoch }
{
    (1 <= epoch) & (epoch <= Config::LAST_EPOCH)
}

// Whether epoch and round of a body are in range.
fn good_head(body: &[u8]) -> bool
    requires { 5 ≤ length body.now }
    ensures { result ≡ good_epoch (epoch_in body.now) && good_round (round_in body.now) }
{
    let round = reading::round_of(body);
    good_epoch(reading::epoch_of(body)) & ((1 <= round) & (round <= Config::LAST_ROUND))
}

// Whether m and the members of a list are in range.
#[tactic(auto, using(crate::proofs::Access::good_entries_lem))]
fn good_list(body: &[u8], stride: usize, n: u8) -> bool
    requires { (0 < stride) × (list_place + count_in body.now * stride ≤ length body.now) }
    ensures { result ≡ good_observations n (observations_in stride body.now) }
{
    let m = reading::count_of(body);
    (1 <= m) & (m <= n as usize) & members_in(body, LIST, stride, m, n)
}

// Whether s and the members that signed are in range.
#[tactic(auto, using(crate::proofs::Access::good_entries_lem), unfolding(crate::specs::Table::body_length))]
fn good_signers(body: &[u8], n: u8) -> bool
    requires { (list_end body.now < length body.now) × (body_length 6 (count_in body.now) (signer_count_in body.now) ≤ length body.now) }
    ensures { result ≡ good_signers n (signers_in body.now) }
{
    let s = reading::signer_count(body);
    (1 <= s)
        & (s <= n as usize)
        & members_in(
            body,
            reading::list_end(body) + 1,
            crate::signer_stride(),
            s,
            n,
        )
}

// Whether each of `many` entries of `stride` bytes begins with a member's number.
#[tactic(auto, using(crate::proofs::Access::members_first), unfolding(crate::specs::Range::all_members, crate::specs::Decode::entries))]
pub fn members_in(b: &[u8], at: usize, stride: usize, many: usize, n: u8) -> bool
    requires { (0 < stride) × (at + many * stride ≤ length b.now) }
    ensures { result ≡ all_members n (λ x. x) (entries (λ l. get_or l 0 0) stride many (drop at b.now)) }
{
    for i in 0..many {
        let x = b[at + i * stride];
        if (x == 0) | (n < x) {
            return false;
        }
    }
    true
}
