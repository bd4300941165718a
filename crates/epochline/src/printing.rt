// What is printed after a call.
ghost use Rattle.std.specs.Prelude.{◌≡◌, [], ◌∷◌, ◌++◌, ◌+◌, ◌≤◌, length};
ghost use Rattle.wire.specs.Overlay.{over};
ghost use Rattle.node.specs.Calls.{out};
ghost use Rattle.epochline.specs.Decimal.{decimal, most_digits};
ghost use Rattle.epochline.specs.Output.{four_numbers, leader_shown, printed};

use crate::{NEWLINE, NOUGHT, Program, SPACE};
use config::Answer;
use node::Node;

// Prints the code, the epoch, its leader and the highest number sent.
#[tactic(auto, unfolding(crate::specs::Output::printed))]
pub(crate) fn print_node(out: &mut [u8; Program::PRINTED], answer: Answer, node: Node) -> usize
    ensures { (out.new ≡ over out.old 0 (printed answer node)) × (result ≡ length (printed answer node)) }
{
    print(
        out,
        config::number(answer),
        node.pace.epoch,
        leader_shown(node),
        node.pace.highest,
    )
}

// The leader of the node's epoch; 0 where there is none.
fn leader_shown(node: Node) -> u8
    ensures { result ≡ leader_shown node }
{
    if node.config.n == 0 {
        return 0;
    }
    config::leader_of(node.config.n, node.pace.epoch)
}

// Prints four numbers, one space apart, and a newline.
pub(crate) fn print(
    out: &mut [u8; Program::PRINTED],
    code: u8,
    epoch: u32,
    leader: u8,
    highest: u32,
) -> usize
    ensures { (out.new ≡ over out.old 0 (four_numbers code epoch leader highest)) × (result ≡ length (four_numbers code epoch leader highest)) }
{
    let at = put(out, 0, u32::from(code), SPACE);
    let at = put(out, at, epoch, SPACE);
    let at = put(out, at, u32::from(leader), SPACE);
    put(out, at, highest, NEWLINE)
}

// Puts a number in decimal at a place, and a character behind it; the place behind both.
fn put(out: &mut [u8], at: usize, x: u32, then: u8) -> usize
    requires { at + (most_digits + 1) ≤ length out.old }
    ensures { (out.new ≡ over out.old at (decimal x ++ (then ∷ []))) × (result ≡ at + length (decimal x ++ (then ∷ []))) × (result ≤ at + (most_digits + 1)) }
{
    let end = at + places(x);
    let mut rest = x;
    for i in (at..end).rev() {
        out[i] = (rest % 10) as u8 + NOUGHT;
        rest /= 10;
    }
    out[end] = then;
    end + 1
}

// How many digits a number has.
#[tactic(auto, using(crate::proofs::Decimals::more_next, crate::proofs::Decimals::length_decimal))]
fn places(x: u32) -> usize
    ensures { (result ≡ length (decimal x)) × (1 ≤ result) × (result ≤ most_digits) }
{
    let mut k: usize = 1;
    let mut rest = x / 10;
    while 0 < rest {
        rest /= 10;
        k += 1;
    }
    k
}
