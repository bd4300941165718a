// Reading frames: the table of kinds, the checks 4 to 9 of document 01, and the parts of a body. The lengths of bodies stand here alone.
#![tactic(auto)]

mod checking;
mod kind;
mod reading;

ghost use Rattle.std.specs.Prelude.{◌≡◌, ◌≤◌};
ghost use Rattle.frame.specs.Table.{shape_of, body_length, version_of, destination_of};
ghost use Rattle.frame.specs.Kinds.{number_of};

pub use checking::{check, check_body, check_final, good_attested, members_in};
pub use kind::{Kind, NoKind};
pub use reading::{
    body_of, body_start, count_of, epoch_of, final_length, kind_of, known_kind, list_end,
    member_at, observe_signature, report_signature, round_of, signer_at, signer_count, value_at,
    value_of,
};

// A row of the table of kinds.
#[derive(Clone, Copy)]
pub struct Shape {
    // the bytes of a body with no observations and no signers
    pub base: usize,
    // the bytes that each observation adds
    pub entry: usize,
    // the bytes that each signer adds
    pub signer: usize,
    // whether the frame goes to the leader alone
    pub leader: bool,
}

// Where a frame goes.
#[derive(Clone, Copy)]
pub enum Destination {
    All,
    Member(u8),
    // the number is no kind
    Nobody,
}

// NEWEPOCH, OBSERVE-REQ, OBSERVE, REPORT-REQ, REPORT, FINAL, FINAL-ECHO.
const TABLE: [Shape; 7] = [
    Shape {
        base: 4,
        entry: 0,
        signer: 0,
        leader: false,
    },
    Shape {
        base: 5,
        entry: 0,
        signer: 0,
        leader: false,
    },
    Shape {
        base: 77,
        entry: 0,
        signer: 0,
        leader: true,
    },
    Shape {
        base: 6,
        entry: 73,
        signer: 0,
        leader: false,
    },
    Shape {
        base: 70,
        entry: 9,
        signer: 0,
        leader: true,
    },
    Shape {
        base: 7,
        entry: 9,
        signer: 65,
        leader: false,
    },
    Shape {
        base: 7,
        entry: 9,
        signer: 65,
        leader: false,
    },
];

// How long a trailer is.
pub const TRAILER: usize = 16;

// How long the frame of a NEWEPOCH is.
pub const NEWEPOCH_FRAME: usize = TABLE[Kind::NewEpoch as usize - 1].base + TRAILER;

// Where the list of a body begins, behind epoch, round and m.
pub const LIST: usize = 6;

// The row of a kind.
#[tactic(auto, unfolding(crate::specs::Table::table, crate::specs::Table::shape_of))]
pub fn shape_of(kind: Kind) -> Shape
    ensures { result ≡ shape_of (number_of kind) }
{
    TABLE[kind as usize - 1]
}

// How long a body of a kind is that has m observations and s signers.
#[tactic(auto, using(crate::proofs::Readable::length_most), unfolding(crate::specs::Table::body_length, crate::specs::Table::table))]
pub fn body_length(kind: Kind, m: usize, s: usize) -> usize
    requires { (m ≤ 255) × (s ≤ 255) }
    ensures { result ≡ body_length (number_of kind) m s }
{
    let row = shape_of(kind);
    row.base + row.entry * m + row.signer * s
}

// The version that the frames of a feed of n members carry and need.
pub fn version(n: u8) -> u16
    ensures { result ≡ version_of n }
{
    1
}

// Where a frame of a kind goes, given who leads.
#[tactic(auto, unfolding(crate::specs::Table::destination_of))]
pub fn goes_to(kind: u8, leader: u8) -> Destination
    ensures { result ≡ destination_of kind leader }
{
    match Kind::try_from(kind) {
        Ok(kind) if shape_of(kind).leader => Destination::Member(leader),
        Ok(_) => Destination::All,
        Err(_) => Destination::Nobody,
    }
}

// The bytes that each observation takes in a body of a kind.
pub fn stride(kind: Kind) -> usize
    ensures { result ≡ (shape_of (number_of kind)).entry }
{
    shape_of(kind).entry
}

// The bytes that each signer takes.
pub fn signer_stride() -> usize
    ensures { result ≡ (shape_of 6).signer }
{
    shape_of(Kind::Final).signer
}
