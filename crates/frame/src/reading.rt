// The readers of a frame's parts.
ghost use Rattle.std.specs.Prelude.{◌≡◌, true, false, ◌≤◌, ◌<◌, length, get_or};
ghost use Rattle.frame.specs.Message.{no_observation, no_signer};
ghost use Rattle.frame.specs.Table.{good_kind, body_length, trailer_length};
ghost use Rattle.frame.specs.Kinds.{number_of};
ghost use Rattle.frame.specs.Decode.{kind_in, body_in, epoch_in, round_in, value_in, observe_signature, count_in, list_place, observations_in, list_end, report_signature, signer_count_in, signers_in, ListIn, SignersIn};
ghost use Rattle.frame.specs.Check.{too_short, body_start};

use crate::{Kind, LIST, TRAILER};
use config::Config;

// The kind that the frame at the end of a slice bears.
pub fn kind_of(frame: &[u8]) -> u8
    requires { trailer_length ≤ length frame.now }
    ensures { result ≡ kind_in frame.now }
{
    frame[frame.len() - TRAILER]
}

// The kind that it bears, where that is one of the seven.
pub fn known_kind(frame: &[u8]) -> Kind
    requires { (trailer_length ≤ length frame.now) × (good_kind (kind_in frame.now) ≡ true) }
    ensures { number_of result ≡ kind_in frame.now }
{
    Kind::try_from(kind_of(frame)).unwrap()
}

// Its body.
#[tactic(auto, using(crate::proofs::Checks::start_short, crate::proofs::Checks::start_at))]
pub fn body_of(frame: &[u8]) -> &[u8]
    requires { too_short frame.now ≡ false }
    ensures { result.now ≡ body_in frame.now }
{
    let Some(start) = body_start(frame) else {
        return &frame[..0];
    };
    let end = frame.len() - TRAILER;
    &frame[start..end]
}

// Where the body starts of the frame that ends with the slice.
#[tactic(auto, unfolding(crate::specs::Check::body_start))]
pub fn body_start(frame: &[u8]) -> Option<usize>
    ensures { result ≡ body_start frame.now }
{
    if frame.len() < TRAILER {
        return None;
    }
    let end = frame.len() - TRAILER;
    let length = wire::read::<u32>(frame, end + 4) as usize;
    if end < length {
        return None;
    }
    Some(end - length)
}

pub fn epoch_of(body: &[u8]) -> u32
    requires { 4 ≤ length body.now }
    ensures { result ≡ epoch_in body.now }
{
    wire::read::<u32>(body, 0)
}

pub fn round_of(body: &[u8]) -> u8
    requires { 5 ≤ length body.now }
    ensures { result ≡ round_in body.now }
{
    body[4]
}

// The value of an OBSERVE.
pub fn value_of(body: &[u8]) -> i64
    requires { 13 ≤ length body.now }
    ensures { result ≡ value_in body.now }
{
    wire::read::<i64>(body, 5)
}

// The signature of an OBSERVE.
#[tactic(auto, unfolding(crate::specs::Table::body_length))]
pub fn observe_signature(body: &[u8]) -> &[u8]
    requires { body_length 3 0 0 ≤ length body.now }
    ensures { result.now ≡ observe_signature body.now }
{
    let start: usize = 13;
    let end = start + Config::SIGNATURE;
    &body[start..end]
}

// How many observations a body lists: m.
pub fn count_of(body: &[u8]) -> usize
    requires { list_place ≤ length body.now }
    ensures { (result ≡ count_in body.now) × (result ≤ 255) }
{
    body[LIST - 1] as usize
}

// The member of observation i, in a list whose entries have this stride.
#[tactic(auto, using(crate::proofs::Access::entry_in, crate::proofs::Access::member_read), unfolding(crate::specs::Table::shape_of))]
pub fn member_at(body: &[u8], stride: usize, i: usize) -> u8
    requires { ListIn stride i body.now }
    ensures { result ≡ (get_or (observations_in stride body.now) i no_observation).member }
{
    body[LIST + i * stride]
}

// Its value.
#[tactic(auto, using(crate::proofs::Access::entry_in, crate::proofs::Access::value_read), unfolding(crate::specs::Table::shape_of))]
pub fn value_at(body: &[u8], stride: usize, i: usize) -> i64
    requires { ListIn stride i body.now }
    ensures { result ≡ (get_or (observations_in stride body.now) i no_observation).value }
{
    wire::read::<i64>(body, LIST + i * stride + 1)
}

// Where a list of bare observations ends: at the signature of a REPORT, at s of a FINAL.
#[tactic(auto, unfolding(crate::specs::Table::shape_of))]
pub fn list_end(body: &[u8]) -> usize
    requires { list_place ≤ length body.now }
    ensures { result ≡ list_end body.now }
{
    LIST + crate::stride(Kind::Final) * count_of(body)
}

// The signature of a REPORT.
#[tactic(auto, using(crate::proofs::Access::part_from), unfolding(crate::specs::Table::body_length))]
pub fn report_signature(body: &[u8]) -> &[u8]
    requires { (list_place ≤ length body.now) × (body_length 5 (count_in body.now) 0 ≤ length body.now) }
    ensures { result.now ≡ report_signature body.now }
{
    let start = list_end(body);
    let end = start + Config::SIGNATURE;
    &body[start..end]
}

// How many have signed it: s.
pub fn signer_count(body: &[u8]) -> usize
    requires { (list_place ≤ length body.now) × (list_end body.now < length body.now) }
    ensures { (result ≡ signer_count_in body.now) × (result ≤ 255) }
{
    let place = list_end(body);
    body[place] as usize
}

// The member of signer i.
#[tactic(auto, using(crate::proofs::Access::signer_read), unfolding(crate::specs::Table::body_length, crate::specs::Table::shape_of))]
pub fn signer_at(body: &[u8], i: usize) -> u8
    requires { SignersIn i body.now }
    ensures { result ≡ (get_or (signers_in body.now) i no_signer).member }
{
    let place = list_end(body) + 1 + i * crate::signer_stride();
    body[place]
}

// How long the FINAL body at the start of a slice is.
pub fn final_length(body: &[u8]) -> usize
    requires { (list_place ≤ length body.now) × (list_end body.now < length body.now) }
    ensures { result ≡ body_length 6 (count_in body.now) (signer_count_in body.now) }
{
    crate::body_length(Kind::Final, count_of(body), signer_count(body))
}
