// Cases that write a frame: the outbox after the writer of the frame's kind has filled it. Nothing is printed for a case that the writer
// could not take: each `put_..` tests what its writer requires, and answers the length of the frame, if it wrote one.
ghost use Rattle.std.specs.Prelude.{◌≡◌, ◌+◌, ◌*◌, ◌≤◌, length};
ghost use Rattle.frame.specs.Table.{trailer_length};
ghost use Rattle.frame.specs.Range.{all_members};

use config::Config;
use frame::Kind;
use std::io;
use std::io::Print;

// How long the outbox is, and the byte that it is full of before.
const OUTBOX: usize = 3000;

const BLANK: u8 = 238;

// How many bytes behind the frame are shown.
const BEHIND: usize = 4;

// Where what is to be said begins: behind operation, kind, n, own number, configuration number and position.
const SAID: usize = 14;

// The bytes of a value, and how many values there is room for: one for each member that a byte can name.
const VALUE: usize = 8;

const VALUES: usize = 255;

pub fn write<R: Print>(rt: &R, case: &[u8]) -> io::Result<()> {
    if case.len() < SAID {
        return Ok(());
    }
    let at = usize::from(wire::read::<u16>(case, 12));
    if OUTBOX < at + frame::TRAILER {
        return Ok(());
    }
    let schedule = [0u8; Config::STAGES];
    let config = Config::new(
        wire::read::<u64>(case, 4),
        case[2],
        0,
        case[3],
        0,
        0,
        0,
        0,
        0,
        schedule,
    );
    let mut outbox = [BLANK; OUTBOX];
    match put(&mut outbox, at, config, case[1], &case[SAID..]) {
        Some(n) => show_outbox(rt, &outbox, at, n),
        None => Ok(()),
    }
}

// The outbox up to a few bytes behind the frame of n bytes at a position, where it has so many.
fn show_outbox<R: Print>(rt: &R, outbox: &[u8], at: usize, n: usize) -> io::Result<()>
    requires { at + trailer_length ≤ length outbox.now }
{
    let left = outbox.len() - at - BEHIND;
    if left < n {
        return Ok(());
    }
    show::hex(rt, outbox, 0, at + n + BEHIND)
}

// By the kind; nothing where it is none.
fn put(outbox: &mut [u8], at: usize, config: Config, kind: u8, said: &[u8]) -> Option<usize>
    requires { at + trailer_length ≤ length outbox.old }
{
    match Kind::try_from(kind).ok()? {
        Kind::NewEpoch => put_newepoch(outbox, at, config, said),
        Kind::ObserveReq => put_observe_req(outbox, at, config, said),
        Kind::Observe => put_observe(outbox, at, config, said),
        Kind::ReportReq => put_report_req(outbox, at, config, said),
        Kind::Report => put_report(outbox, at, config, said),
        Kind::Final => put_final(outbox, at, config, said),
        Kind::FinalEcho => put_final_echo(outbox, at, config, said),
    }
}

// Epoch.
fn put_newepoch(outbox: &mut [u8], at: usize, config: Config, said: &[u8]) -> Option<usize>
    requires { at + trailer_length ≤ length outbox.old }
{
    if said.len() != 4 {
        return None;
    }
    if space(outbox.len(), at) < frame::body_length(Kind::NewEpoch, 0, 0) {
        return None;
    }
    Some(outbox::write_newepoch(outbox, at, config, wire::read::<u32>(said, 0)))
}

// Epoch, round.
fn put_observe_req(outbox: &mut [u8], at: usize, config: Config, said: &[u8]) -> Option<usize>
    requires { at + trailer_length ≤ length outbox.old }
{
    if said.len() != 5 {
        return None;
    }
    if space(outbox.len(), at) < frame::body_length(Kind::ObserveReq, 0, 0) {
        return None;
    }
    Some(outbox::write_observe_req(outbox, at, config, wire::read::<u32>(said, 0), said[4]))
}

// Epoch, round, value.
fn put_observe(outbox: &mut [u8], at: usize, config: Config, said: &[u8]) -> Option<usize>
    requires { at + trailer_length ≤ length outbox.old }
{
    if said.len() != 13 {
        return None;
    }
    if space(outbox.len(), at) < frame::body_length(Kind::Observe, 0, 0) {
        return None;
    }
    Some(outbox::write_observe(
        outbox,
        at,
        config,
        wire::read::<u32>(said, 0),
        said[4],
        wire::read::<i64>(said, 5),
    ))
}

// Epoch, round, m, the members of a list, and the tables.
fn put_report_req(outbox: &mut [u8], at: usize, config: Config, said: &[u8]) -> Option<usize>
    requires { at + trailer_length ≤ length outbox.old }
{
    if said.len() < frame::LIST {
        return None;
    }
    let end = frame::LIST + frame::count_of(said);
    if said.len() < end {
        return None;
    }
    put_requested(
        outbox,
        at,
        config,
        wire::read::<u32>(said, 0),
        said[4],
        &said[frame::LIST..end],
        &said[end..],
    )
}

// The tables are the values of members 1 to n, and then their signatures.
#[tactic(auto, using(crate::proofs::Cases::signatures_long))]
fn put_requested(
    outbox: &mut [u8],
    at: usize,
    config: Config,
    epoch: u32,
    round: u8,
    order: &[u8],
    tables: &[u8],
) -> Option<usize>
    requires { (at + trailer_length ≤ length outbox.old) × (length order.now ≤ 255) }
{
    let n = config.n;
    let many = usize::from(n);
    if tables.len() != (VALUE + Config::SIGNATURE) * many {
        return None;
    }
    if space(outbox.len(), at) < frame::body_length(Kind::ReportReq, order.len(), 0) {
        return None;
    }
    if !good_members(order, n) {
        return None;
    }
    let values = values_in(tables, n);
    let start = VALUE * many;
    Some(outbox::write_report_req(
        outbox,
        at,
        config,
        epoch,
        round,
        order,
        &values,
        &tables[start..],
    ))
}

// The body of the REPORT-REQ that is answered.
fn put_report(outbox: &mut [u8], at: usize, config: Config, said: &[u8]) -> Option<usize>
    requires { at + trailer_length ≤ length outbox.old }
{
    if said.len() < frame::LIST {
        return None;
    }
    let m = frame::count_of(said);
    if said.len() != frame::body_length(Kind::ReportReq, m, 0) {
        return None;
    }
    if space(outbox.len(), at) < frame::body_length(Kind::Report, m, 0) {
        return None;
    }
    Some(outbox::write_report(outbox, at, config, said))
}

// Epoch, round, m, the members of the list, s, the members that signed, and the tables.
fn put_final(outbox: &mut [u8], at: usize, config: Config, said: &[u8]) -> Option<usize>
    requires { at + trailer_length ≤ length outbox.old }
{
    if said.len() < frame::LIST {
        return None;
    }
    let end = frame::LIST + frame::count_of(said);
    if said.len() <= end {
        return None;
    }
    let first = end + 1;
    let last = first + usize::from(said[end]);
    if said.len() < last {
        return None;
    }
    put_attested(
        outbox,
        at,
        config,
        wire::read::<u32>(said, 0),
        said[4],
        &said[frame::LIST..end],
        &said[first..last],
        &said[last..],
    )
}

#[tactic(auto, using(crate::proofs::Cases::signatures_long))]
fn put_attested(
    outbox: &mut [u8],
    at: usize,
    config: Config,
    epoch: u32,
    round: u8,
    order: &[u8],
    signers: &[u8],
    tables: &[u8],
) -> Option<usize>
    requires { (at + trailer_length ≤ length outbox.old) × (length order.now ≤ 255) × (length signers.now ≤ 255) }
{
    let n = config.n;
    let many = usize::from(n);
    if tables.len() != (VALUE + Config::SIGNATURE) * many {
        return None;
    }
    if space(outbox.len(), at) < frame::body_length(Kind::Final, order.len(), signers.len()) {
        return None;
    }
    if !(good_members(order, n) & good_members(signers, n)) {
        return None;
    }
    let values = values_in(tables, n);
    let start = VALUE * many;
    Some(outbox::write_final(
        outbox,
        at,
        config,
        epoch,
        round,
        order,
        &values,
        signers,
        &tables[start..],
    ))
}

// The body of the FINAL that is echoed.
#[tactic(auto, unfolding(frame::specs::Table::body_length, frame::specs::Table::shape_of, frame::specs::Table::table))]
fn put_final_echo(outbox: &mut [u8], at: usize, config: Config, said: &[u8]) -> Option<usize>
    requires { at + trailer_length ≤ length outbox.old }
{
    if said.len() < frame::LIST {
        return None;
    }
    if said.len() <= frame::list_end(said) {
        return None;
    }
    if said.len() != frame::final_length(said) {
        return None;
    }
    if space(outbox.len(), at) < said.len() {
        return None;
    }
    Some(outbox::write_final_echo(outbox, at, config, said))
}

// How many bytes a body can have whose frame begins at a position of an outbox this long.
fn space(long: usize, at: usize) -> usize
    requires { at + trailer_length ≤ long }
    ensures { at + (result + trailer_length) ≡ long }
{
    long - at - frame::TRAILER
}

// Whether each of these is one of n members.
#[tactic(auto, using(crate::proofs::Cases::entries_one))]
fn good_members(order: &[u8], n: u8) -> bool
    ensures { result ≡ all_members n (λ x. x) order.now }
{
    frame::members_in(order, 0, 1, order.len(), n)
}

// The values of members 1 to n, at the start of the tables.
fn values_in(tables: &[u8], n: u8) -> [i64; VALUES]
    requires { 8 * n ≤ length tables.now }
    ensures { n ≤ length result }
{
    let mut values = [0i64; VALUES];
    let bodies = tables.chunks_exact(VALUE);
    for (value, bytes) in values[..usize::from(n)].iter_mut().zip(bodies) {
        *value = wire::read::<i64>(bytes, 0);
    }
    values
}
