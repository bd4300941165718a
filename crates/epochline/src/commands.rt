// The call of a node that a command stands for.
ghost use Rattle.std.specs.Prelude.{◌≡◌};
ghost use Rattle.node.specs.Calls.{out};
ghost use Rattle.epochline.specs.Output.{running, calling};

use crate::Command;
use config::{Commit, Config};
use node::{Arrival, Fired, Node, Outcome};

// The call of a command.
#[tactic(auto, unfolding(crate::specs::Output::calling))]
pub(crate) fn calling(
    node: Node,
    command: Command,
    outbox: &mut [u8],
    kept: &mut [u8],
    signatures: &mut [u8],
) -> Outcome
    ensures { out result outbox.new kept.new signatures.new ≡ calling (running node outbox.old kept.old signatures.old) command }
{
    match command {
        Command::Start => node.start(0, outbox, 0, &kept[..], &signatures[..]),
        Command::Heard(j, x) => heard(node, j, x, outbox, kept, signatures),
        Command::Progress => node.timer(Fired::Progress, 0, outbox, 0, &kept[..], signatures),
    }
}

// A NEWEPOCH comes over the link of its member.
#[tactic(auto, using(crate::proofs::Turns::frame_whole), unfolding(frame::specs::Table::body_length, crate::specs::Output::calling))]
fn heard(
    node: Node,
    j: u8,
    x: u32,
    outbox: &mut [u8],
    kept: &mut [u8],
    signatures: &mut [u8],
) -> Outcome
    ensures { out result outbox.new kept.new signatures.new ≡ calling (running node outbox.old kept.old signatures.old) (Command.Heard j x) }
{
    let sender = Config {
        own: j,
        ..node.config
    };
    let mut frame = [0u8; frame::NEWEPOCH_FRAME];
    outbox::write_newepoch(&mut frame, 0, sender, x);
    let commit = Commit {
        median: 0,
        time: 0,
        epoch: 0,
        round: 0,
    };
    let arrival = Arrival {
        link: j,
        time: 0,
        observation: 0,
        commit,
        bits: 0,
        frame: &frame,
    };
    node.deliver(arrival, outbox, 0, kept, signatures)
}
