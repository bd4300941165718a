// Cases that read a frame: what checking it gives, and what it says where nothing is wrong. A frame that passed has its kind's length, so
// that its parts are read with no further test.
ghost use Rattle.std.specs.Prelude.{◌≡◌, ◌+◌, ◌*◌, ◌≤◌, length};
ghost use Rattle.frame.specs.Kinds.{number_of};
ghost use Rattle.frame.specs.Table.{shape_of, body_length};
ghost use Rattle.frame.specs.Decode.{count_in, list_place, signer_count_in};

use frame::Kind;
use std::io;
use std::io::Print;

// Where the frame of a case begins: behind the operation, n, the link and the configuration number.
const FRAME: usize = 11;

pub fn read<R: Print>(rt: &R, case: &[u8]) -> io::Result<()> {
    if case.len() < FRAME {
        return Ok(());
    }
    read_frame(
        rt,
        case[1],
        case[2],
        wire::read::<u64>(case, 3),
        &case[FRAME..],
    )
}

#[tactic(auto, using(config::proofs::Facts::done_only, frame::proofs::Ranges::one_to, frame::proofs::Framed::checked_frame))]
fn read_frame<R: Print>(rt: &R, n: u8, link: u8, number: u64, frame: &[u8]) -> io::Result<()> {
    let answer = frame::check(frame, n, number, link);
    rt.print(config::number(answer))?;
    if answer.is_ok() {
        say(rt, frame::known_kind(frame), frame::body_of(frame))?;
    }
    Ok(())
}

// What a body of its kind's length says.
#[tactic(auto, unfolding(frame::specs::Table::body_length, frame::specs::Table::shape_of, frame::specs::Table::table))]
fn say<R: Print>(rt: &R, kind: Kind, body: &[u8]) -> io::Result<()>
    requires { length body.now ≡ body_length (number_of kind) (count_in body.now) (signer_count_in body.now) }
{
    show::number(rt, kind.number() as u64)?;
    match kind {
        Kind::NewEpoch => show::number(rt, frame::epoch_of(body) as u64),
        Kind::ObserveReq => say_head(rt, body),
        Kind::Observe => say_observe(rt, body),
        Kind::ReportReq | Kind::Report => say_list(rt, body, frame::stride(kind)),
        Kind::Final | Kind::FinalEcho => say_final(rt, body),
    }
}

fn say_head<R: Print>(rt: &R, body: &[u8]) -> io::Result<()>
    requires { 5 ≤ length body.now }
{
    show::number(rt, frame::epoch_of(body) as u64)?;
    show::number(rt, frame::round_of(body) as u64)
}

fn say_observe<R: Print>(rt: &R, body: &[u8]) -> io::Result<()>
    requires { 13 ≤ length body.now }
{
    say_head(rt, body)?;
    show::number(rt, frame::value_of(body).cast_unsigned())
}

// The head, m, and member and value of each observation.
fn say_list<R: Print>(rt: &R, body: &[u8], stride: usize) -> io::Result<()>
    requires { ((shape_of 6).entry ≤ stride) × (list_place + count_in body.now * stride ≤ length body.now) }
{
    say_head(rt, body)?;
    let m = frame::count_of(body);
    show::number(rt, m as u64)?;
    for i in 0..m {
        show::number(rt, frame::member_at(body, stride, i) as u64)?;
        show::number(rt, frame::value_at(body, stride, i).cast_unsigned())?;
    }
    Ok(())
}

// What a list says, then s and the member of each signer.
#[tactic(auto, unfolding(frame::specs::Table::body_length, frame::specs::Table::shape_of, frame::specs::Table::table))]
fn say_final<R: Print>(rt: &R, body: &[u8]) -> io::Result<()>
    requires { body_length 6 (count_in body.now) (signer_count_in body.now) ≤ length body.now }
{
    say_list(rt, body, frame::stride(Kind::Final))?;
    let s = frame::signer_count(body);
    show::number(rt, s as u64)?;
    for i in 0..s {
        show::number(rt, frame::signer_at(body, i) as u64)?;
    }
    Ok(())
}
