// What an attested report says, whether it stands, and how it is kept: one account for follower, sender and contract.
#![tactic(auto)]

ghost use Rattle.std.specs.Prelude.{◌≡◌, ◌≤◌, ◌<◌, length, Err};
ghost use Rattle.config.specs.Limits.{members, kept_size};
ghost use Rattle.price.specs.Median.{median_of};
ghost use Rattle.frame.specs.Decode.{count_in, observations_in, signers_in, attested_in};
ghost use Rattle.frame.specs.Range.{good_attested};
ghost use Rattle.report.specs.Faults.{code_of};
ghost use Rattle.report.specs.Stands.{values_of, not_falling, list_fault, signer_members, bits_fault, repeat_fault, signers_fault, attested_fault};
ghost use Rattle.report.specs.Kept.{keeping, cleared};
ghost use Rattle.report.specs.Newer.{newer};
ghost use Rattle.report.specs.Whole.{WholeList, WholeReport, part_of};

use config::{Config, Refusal};
use frame::Kind;

// What is wrong with a report.
#[derive(Clone, Copy, PartialEq, Eq)]
pub enum Fault {
    // at most 2f observations
    Few,
    // a value below the one before it
    Falling,
    // a member observed twice
    Twice,
    // at most f signers
    TooFewSigners,
    // the signer at this place has signed before
    SignerTwice(usize),
    // the signature at this place did not verify
    ClearBit(usize),
}

// Whether a report stands, and else what is wrong with it.
pub type Standing = Result<(), Fault>;

impl From<Fault> for Refusal {
    ghost from_gives = { λ fault refusal. Err refusal ≡ code_of (Err fault) };

    // The answer that a fault is given.
    fn from(fault: Fault) -> Refusal {
        match fault {
            Fault::Few => Refusal::Few,
            Fault::Falling => Refusal::Order,
            Fault::Twice => Refusal::Twice,
            Fault::TooFewSigners => Refusal::Signers,
            Fault::SignerTwice(_) => Refusal::Signers,
            Fault::ClearBit(_) => Refusal::Signers,
        }
    }
}

// Checks 14 to 17 of the report in a body.
#[tactic(auto, using(crate::proofs::Whole::report_list), unfolding(crate::specs::Stands::attested_fault))]
pub fn attested_fault(body: &[u8], f: u8, bits: u64) -> Standing
    requires { WholeReport body.now }
    ensures { result ≡ attested_fault f bits (attested_in body.now) }
{
    list_fault(body, frame::stride(Kind::Final), f)?;
    signers_fault(body, f, bits)
}

// Checks 14 to 16 of a list of observations, whatever stride its entries have.
#[tactic(auto, using(frame::proofs::Entries::length_entries, crate::proofs::Whole::list_stride, crate::proofs::Whole::distinct_members), unfolding(crate::specs::Stands::list_fault))]
pub fn list_fault(body: &[u8], stride: usize, f: u8) -> Standing
    requires { WholeList stride body.now }
    ensures { result ≡ list_fault f (observations_in stride body.now) }
{
    let m = frame::count_of(body);
    if m <= 2 * (f as usize) {
        return Err(Fault::Few);
    }
    if !not_falling(body, stride) {
        return Err(Fault::Falling);
    }
    if quorum::first_repeat(body, frame::LIST, stride, m) != m {
        return Err(Fault::Twice);
    }
    Ok(())
}

// Whether no value is below the one before it.
#[tactic(auto, using(frame::proofs::Entries::length_entries, crate::proofs::Whole::length_each, crate::proofs::Values::falling_next, crate::proofs::Values::falling_end))]
fn not_falling(body: &[u8], stride: usize) -> bool
    requires { WholeList stride body.now }
    ensures { result ≡ not_falling (values_of (observations_in stride body.now)) }
{
    let m = frame::count_of(body);
    for i in 1..m {
        let value = frame::value_at(body, stride, i);
        let before = frame::value_at(body, stride, i - 1);
        if value < before {
            return false;
        }
    }
    true
}

// Check 17 of the report in a body.
#[tactic(auto, using(frame::proofs::Entries::length_entries, crate::proofs::Whole::report_head, crate::proofs::Whole::report_list_end), unfolding(crate::specs::Stands::signers_fault))]
fn signers_fault(body: &[u8], f: u8, bits: u64) -> Standing
    requires { WholeReport body.now }
    ensures { result ≡ signers_fault f bits (signers_in body.now) }
{
    let s = frame::signer_count(body);
    if s <= f as usize {
        return Err(Fault::TooFewSigners);
    }
    repeat_fault(body)?;
    bits_fault(bits, s)
}

// A signer that signed before.
#[tactic(auto, using(crate::proofs::Whole::report_head, crate::proofs::Whole::report_list_end, crate::proofs::Whole::report_signers, crate::proofs::Whole::signer_stride, crate::proofs::Whole::length_each, crate::proofs::Whole::repeat_members, crate::proofs::Faults::fault_at, crate::proofs::Faults::fault_none), unfolding(crate::specs::Stands::repeat_fault))]
fn repeat_fault(body: &[u8]) -> Standing
    requires { WholeReport body.now }
    ensures { result ≡ repeat_fault (signer_members (signers_in body.now)) }
{
    let s = frame::signer_count(body);
    let i = quorum::first_repeat(body, frame::list_end(body) + 1, frame::signer_stride(), s);
    if i < s {
        return Err(Fault::SignerTwice(i));
    }
    Ok(())
}

// A clear bit among the first `many`.
#[tactic(auto, using(crate::proofs::Faults::fault_at, crate::proofs::Faults::fault_none), unfolding(crate::specs::Stands::bits_fault))]
pub fn bits_fault(bits: u64, many: usize) -> Standing
    ensures { result ≡ bits_fault bits many }
{
    let i = quorum::first_clear(bits, many);
    if i < many {
        return Err(Fault::ClearBit(i));
    }
    Ok(())
}

// The median of a list of observations, as written.
pub fn median(body: &[u8], stride: usize) -> i64
    requires { WholeList stride body.now × (0 < count_in body.now) }
    ensures { result ≡ median_of (values_of (observations_in stride body.now)) }
{
    let m = frame::count_of(body);
    let place = price::median_place(m);
    frame::value_at(body, stride, place)
}

// Whether (epoch, round) is above another pair.
pub fn newer(epoch: u32, round: u8, than_epoch: u32, than_round: u8) -> bool
    ensures { result ≡ newer epoch round than_epoch than_round }
{
    (than_epoch, than_round) < (epoch, round)
}

// Whether the body that a buffer of full size keeps is in range.
#[tactic(auto, using(crate::proofs::Kept::kept_readable))]
pub fn good_kept(buffer: &[u8], n: u8) -> bool
    requires { (n ≤ members) × (kept_size ≤ length buffer.now) }
    ensures { result ≡ good_attested n (attested_in buffer.now) }
{
    frame::good_attested(buffer, n)
}

// Keeps a body in a buffer: at the start, with zeros after it.
pub fn keep(buffer: &mut [u8], body: &[u8])
    requires { (length body.now ≤ kept_size) × (kept_size ≤ length buffer.old) }
    ensures { buffer.new ≡ keeping buffer.old body.now }
{
    let n = body.len();
    wire::copy(buffer, 0, body, 0, n);
    wire::zero(buffer, n, Config::KEPT - n);
}

// Clears a buffer.
pub fn clear(buffer: &mut [u8])
    requires { kept_size ≤ length buffer.old }
    ensures { buffer.new ≡ cleared buffer.old }
{
    buffer[..Config::KEPT].fill(0);
}

// The `len` bytes from `start` on, where they lie within the slice; else none.
#[tactic(auto, using(frame::proofs::Access::part_from))]
pub fn part_of(s: &[u8], start: usize, len: usize) -> &[u8]
    ensures { result.now ≡ part_of s.now start len }
{
    match start.checked_add(len) {
        Some(end) if end <= s.len() => &s[start..end],
        _ => &[],
    }
}
