// Writing frames: each writer lays the frame of its message over the outbox from a position on, and nothing else.
#![tactic(auto, unfolding(frame::specs::Table::body_length, frame::specs::Table::shape_of, frame::specs::Table::table))]

ghost use Rattle.std.specs.Prelude.{◌≡◌, ◌+◌, ◌*◌, ◌^◌, ◌≤◌, ◌<◌, length};
ghost use Rattle.config.specs.Limits.{signature_size};
ghost use Rattle.wire.specs.Overlay.{over};
ghost use Rattle.frame.specs.Message.{new_epoch, observe_req, observe, report_req, report, final, final_echo};
ghost use Rattle.frame.specs.Kinds.{number_of};
ghost use Rattle.frame.specs.Table.{shape_of, body_length, version_of, trailer_length};
ghost use Rattle.frame.specs.Encode.{flat, head_bytes, observation_bytes, signed_bytes, signer_bytes, body_bytes, trailer_bytes};
ghost use Rattle.frame.specs.Decode.{epoch_in, round_in, count_in, list_place, observations_in, signer_count_in, attested_in};
ghost use Rattle.outbox.specs.Written.{Wrote, Fits, own_signature, signature_of, observed, observations, signed_observations, signers_of, Members, HasValues, HasSignatures};

use config::Config;
use frame::Kind;

// What n members have said and signed, by member.
#[derive(Clone, Copy)]
struct Tables<'a> {
    n: u8,
    values: &'a [i64],
    signatures: &'a [u8],
    ghost has_values: { HasValues n values.now },
    ghost has_signatures: { HasSignatures n signatures.now },
}

pub fn write_newepoch(outbox: &mut [u8], at: usize, config: Config, epoch: u32) -> usize
    requires { Fits 1 0 0 outbox.old at }
    ensures { Wrote config (new_epoch epoch) outbox.old at outbox.new result }
{
    let n = put_newepoch(&mut outbox[at..], epoch);
    put_trailer(&mut outbox[at..], n, config, Kind::NewEpoch)
}

pub fn write_observe_req(
    outbox: &mut [u8],
    at: usize,
    config: Config,
    epoch: u32,
    round: u8,
) -> usize
    requires { Fits 2 0 0 outbox.old at }
    ensures { Wrote config (observe_req epoch round) outbox.old at outbox.new result }
{
    let n = put_head(&mut outbox[at..], epoch, round);
    put_trailer(&mut outbox[at..], n, config, Kind::ObserveReq)
}

// With the node's own signature left for the host to fill.
pub fn write_observe(
    outbox: &mut [u8],
    at: usize,
    config: Config,
    epoch: u32,
    round: u8,
    value: i64,
) -> usize
    requires { Fits 3 0 0 outbox.old at }
    ensures { Wrote config (observe epoch round value own_signature) outbox.old at outbox.new result }
{
    let n = put_observe(&mut outbox[at..], epoch, round, value);
    put_trailer(&mut outbox[at..], n, config, Kind::Observe)
}

// The observations of the members in `order`, with their values and signatures by member.
pub fn write_report_req(
    outbox: &mut [u8],
    at: usize,
    config: Config,
    epoch: u32,
    round: u8,
    order: &[u8],
    values: &[i64],
    signatures: &[u8],
) -> usize
    requires { Fits 4 (length order.now) 0 outbox.old at × (length order.now ≤ 255) × Members config.n order.now × HasValues config.n values.now × HasSignatures config.n signatures.now }
    ensures { Wrote config (report_req epoch round (signed_observations order.now values.now signatures.now)) outbox.old at outbox.new result }
{
    let tables = Tables {
        n: config.n,
        values,
        signatures,
    };
    let n = put_report_req(&mut outbox[at..], epoch, round, order, tables);
    put_trailer(&mut outbox[at..], n, config, Kind::ReportReq)
}

// The REPORT that answers a REPORT-REQ of this body, with the node's own signature left for the host to fill.
pub fn write_report(outbox: &mut [u8], at: usize, config: Config, body: &[u8]) -> usize
    requires { Fits 5 (count_in body.now) 0 outbox.old at × (length body.now ≡ body_length 4 (count_in body.now) 0) }
    ensures { Wrote config (report (epoch_in body.now) (round_in body.now) (observations_in (shape_of 4).entry body.now) own_signature) outbox.old at outbox.new result }
{
    let n = put_report(&mut outbox[at..], body);
    put_trailer(&mut outbox[at..], n, config, Kind::Report)
}

// The observations of the members in `order`, signed by the members in `signers`.
pub fn write_final(
    outbox: &mut [u8],
    at: usize,
    config: Config,
    epoch: u32,
    round: u8,
    order: &[u8],
    values: &[i64],
    signers: &[u8],
    signatures: &[u8],
) -> usize
    requires { Fits 6 (length order.now) (length signers.now) outbox.old at × (length order.now ≤ 255) × (length signers.now ≤ 255) × Members config.n order.now × HasValues config.n values.now × Members config.n signers.now × HasSignatures config.n signatures.now }
    ensures { Wrote config (final (record { epoch = epoch; round = round; list = observations order.now values.now; signers = signers_of signers.now signatures.now })) outbox.old at outbox.new result }
{
    let tables = Tables {
        n: config.n,
        values,
        signatures,
    };
    let n = put_final(&mut outbox[at..], epoch, round, order, signers, tables);
    put_trailer(&mut outbox[at..], n, config, Kind::Final)
}

// The echo of a FINAL of this body.
pub fn write_final_echo(outbox: &mut [u8], at: usize, config: Config, body: &[u8]) -> usize
    requires { Fits 7 (count_in body.now) (signer_count_in body.now) outbox.old at × (length body.now ≡ body_length 6 (count_in body.now) (signer_count_in body.now)) }
    ensures { Wrote config (final_echo (attested_in body.now)) outbox.old at outbox.new result }
{
    let n = put_copy(&mut outbox[at..], body);
    put_trailer(&mut outbox[at..], n, config, Kind::FinalEcho)
}

// ---- bodies, from the start of a slice on; each answers the body's length

#[tactic(auto, unfolding(frame::specs::Table::body_length, frame::specs::Table::shape_of, frame::specs::Table::table, frame::specs::Encode::body_bytes))]
fn put_newepoch(out: &mut [u8], epoch: u32) -> usize
    requires { body_length 1 0 0 ≤ length out.old }
    ensures { (out.new ≡ over out.old 0 (body_bytes (new_epoch epoch))) × (result ≡ body_length 1 0 0) }
{
    wire::write(out, 0, epoch);
    frame::body_length(Kind::NewEpoch, 0, 0)
}

fn put_head(out: &mut [u8], epoch: u32, round: u8) -> usize
    requires { body_length 2 0 0 ≤ length out.old }
    ensures { (out.new ≡ over out.old 0 (head_bytes epoch round)) × (result ≡ body_length 2 0 0) }
{
    wire::write(out, 0, epoch);
    out[4] = round;
    frame::body_length(Kind::ObserveReq, 0, 0)
}

fn put_observe(out: &mut [u8], epoch: u32, round: u8, value: i64) -> usize
    requires { body_length 3 0 0 ≤ length out.old }
    ensures { (out.new ≡ over out.old 0 (body_bytes (observe epoch round value own_signature))) × (result ≡ body_length 3 0 0) }
{
    let p = put_head(out, epoch, round);
    wire::write(out, p, value);
    wire::zero(out, p + 8, Config::SIGNATURE);
    frame::body_length(Kind::Observe, 0, 0)
}

fn put_report_req(out: &mut [u8], epoch: u32, round: u8, order: &[u8], tables: Tables) -> usize
    requires { (body_length 4 (length order.now) 0 ≤ length out.old) × (length order.now ≤ 255) × Members tables.n order.now }
    ensures { (out.new ≡ over out.old 0 (body_bytes (report_req epoch round (signed_observations order.now tables.entry.values.now tables.entry.signatures.now)))) × (result ≡ body_length 4 (length order.now) 0) }
{
    let p = put_head(out, epoch, round);
    out[p] = order.len() as u8;
    put_signed(out, p + 1, order, tables)
}

fn put_report(out: &mut [u8], body: &[u8]) -> usize
    requires { (body_length 5 (count_in body.now) 0 ≤ length out.old) × (length body.now ≡ body_length 4 (count_in body.now) 0) }
    ensures { (out.new ≡ over out.old 0 (body_bytes (report (epoch_in body.now) (round_in body.now) (observations_in (shape_of 4).entry body.now) own_signature))) × (result ≡ body_length 5 (count_in body.now) 0) }
{
    wire::copy(out, 0, body, 0, frame::LIST);
    let p = put_said(out, body);
    wire::zero(out, p, Config::SIGNATURE);
    p + Config::SIGNATURE
}

fn put_final(
    out: &mut [u8],
    epoch: u32,
    round: u8,
    order: &[u8],
    signers: &[u8],
    tables: Tables,
) -> usize
    requires { (body_length 6 (length order.now) (length signers.now) ≤ length out.old) × (length order.now ≤ 255) × (length signers.now ≤ 255) × Members tables.n order.now × Members tables.n signers.now }
    ensures { (out.new ≡ over out.old 0 (body_bytes (final (record { epoch = epoch; round = round; list = observations order.now tables.entry.values.now; signers = signers_of signers.now tables.entry.signatures.now })))) × (result ≡ body_length 6 (length order.now) (length signers.now)) }
{
    let p = put_head(out, epoch, round);
    out[p] = order.len() as u8;
    let q = put_observations(out, p + 1, order, tables);
    out[q] = signers.len() as u8;
    put_signers(out, q + 1, signers, tables)
}

// A body as it stands.
fn put_copy(out: &mut [u8], body: &[u8]) -> usize
    requires { length body.now ≤ length out.old }
    ensures { (out.new ≡ over out.old 0 body.now) × (result ≡ length body.now) }
{
    wire::copy(out, 0, body, 0, body.len());
    body.len()
}

// ---- lists, from a place of a slice on; each answers the place behind the list

#[tactic(auto, using(crate::proofs::Runs::member_at, crate::proofs::Runs::run_end), unfolding(frame::specs::Table::shape_of, frame::specs::Table::table))]
fn put_observations(out: &mut [u8], at: usize, order: &[u8], tables: Tables) -> usize
    requires { (at + length order.now * (shape_of 6).entry ≤ length out.old) × Members tables.n order.now }
    ensures { (out.new ≡ over out.old at (flat observation_bytes (observations order.now tables.entry.values.now))) × (result ≡ at + length order.now * (shape_of 6).entry) }
{
    let stride = frame::stride(Kind::Final);
    let mut p = at;
    for j in order {
        put_observation(out, p, *j, tables.values);
        p += stride;
    }
    p
}

#[tactic(auto, using(crate::proofs::Runs::member_at, crate::proofs::Runs::run_end), unfolding(frame::specs::Table::shape_of, frame::specs::Table::table))]
fn put_signed(out: &mut [u8], at: usize, order: &[u8], tables: Tables) -> usize
    requires { (at + length order.now * (shape_of 4).entry ≤ length out.old) × Members tables.n order.now }
    ensures { (out.new ≡ over out.old at (flat signed_bytes (signed_observations order.now tables.entry.values.now tables.entry.signatures.now))) × (result ≡ at + length order.now * (shape_of 4).entry) }
{
    let stride = frame::stride(Kind::ReportReq);
    let mut p = at;
    for j in order {
        put_observation(out, p, *j, tables.values);
        put_signature(out, p + frame::stride(Kind::Final), *j, tables.signatures);
        p += stride;
    }
    p
}

#[tactic(auto, using(crate::proofs::Runs::run_end), unfolding(frame::specs::Table::shape_of, frame::specs::Table::table))]
fn put_signers(out: &mut [u8], at: usize, signers: &[u8], tables: Tables) -> usize
    requires { (at + length signers.now * (shape_of 6).signer ≤ length out.old) × Members tables.n signers.now }
    ensures { (out.new ≡ over out.old at (flat signer_bytes (signers_of signers.now tables.entry.signatures.now))) × (result ≡ at + length signers.now * (shape_of 6).signer) }
{
    let stride = frame::signer_stride();
    let mut p = at;
    for j in signers {
        out[p] = *j;
        put_signature(out, p + 1, *j, tables.signatures);
        p += stride;
    }
    p
}

// The observations of a REPORT-REQ's body, each without its signature, where a REPORT has them.
#[tactic(auto, using(crate::proofs::Runs::run_end), unfolding(frame::specs::Table::body_length, frame::specs::Table::shape_of, frame::specs::Table::table))]
fn put_said(out: &mut [u8], body: &[u8]) -> usize
    requires { (list_place + count_in body.now * (shape_of 5).entry ≤ length out.old) × (length body.now ≡ body_length 4 (count_in body.now) 0) }
    ensures { (out.new ≡ over out.old list_place (flat observation_bytes (observations_in (shape_of 4).entry body.now))) × (result ≡ list_place + count_in body.now * (shape_of 5).entry) }
{
    let signed = frame::stride(Kind::ReportReq);
    let stride = frame::stride(Kind::Report);
    let mut p = frame::LIST;
    for i in 0..frame::count_of(body) {
        wire::copy(out, p, body, frame::LIST + i * signed, stride);
        p += stride;
    }
    p
}

// Member j's number and value.
#[tactic(auto, using(crate::proofs::Runs::laid_behind), unfolding(frame::specs::Table::shape_of, frame::specs::Table::table, frame::specs::Encode::observation_bytes))]
fn put_observation(out: &mut [u8], at: usize, j: u8, values: &[i64])
    requires { (at + (shape_of 6).entry ≤ length out.old) × (1 ≤ j) × (j ≤ length values.now) }
    ensures { out.new ≡ over out.old at (observation_bytes (observed values.now j)) }
{
    let place = j as usize - 1;
    out[at] = j;
    wire::write(out, at + 1, values[place]);
}

// Member j's signature.
fn put_signature(out: &mut [u8], at: usize, j: u8, signatures: &[u8])
    requires { (at + signature_size ≤ length out.old) × (1 ≤ j) × (signature_size * j ≤ length signatures.now) }
    ensures { out.new ≡ over out.old at (signature_of signatures.now j) }
{
    let start = Config::SIGNATURE * (j as usize - 1);
    wire::copy(out, at, signatures, start, Config::SIGNATURE);
}

// The trailer behind a body of n bytes at the start of a slice; answers the length of the frame.
fn put_trailer(out: &mut [u8], n: usize, config: Config, kind: Kind) -> usize
    requires { (n + trailer_length ≤ length out.old) × (n < 2 ^ 32) }
    ensures { (out.new ≡ over out.old n (trailer_bytes (number_of kind) config.own (version_of config.n) n config.number)) × (result ≡ n + trailer_length) }
{
    out[n] = kind.number();
    out[n + 1] = config.own;
    wire::write(out, n + 2, frame::version(config.n));
    wire::write(out, n + 4, n as u32);
    wire::write(out, n + 8, config.number);
    n + frame::TRAILER
}
