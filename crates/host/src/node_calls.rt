// The calls of a node.
ghost use Rattle.std.specs.Prelude.{◌≡◌};
ghost use Rattle.node.specs.Calls.{out};
ghost use Rattle.host.specs.Numbers.{timer_number, flag_of};
ghost use Rattle.host.specs.Lent.{lent_node, after_call, after_made};
ghost use Rattle.host.specs.Calls.{restore_at, start_at, deliver_at, timer_call, timer_at};

use crate::{LentNode, NodeOutcome};
use config::{Saved, Timer};
use node::{Arrival, Fired, NoTimer, Node};

// A node that has heard and sent nothing.
#[unsafe(no_mangle)]
pub extern "C" fn wederburh_node_fresh(lent: &mut LentNode) -> u8
    ensures { (lent.new ≡ restore_at lent.old 0 0) × (result ≡ lent.new.outcome.answer) }
{
    *lent = fresh_node(*lent);
    lent.outcome.answer
}

// A node as it was saved.
#[unsafe(no_mangle)]
pub extern "C" fn wederburh_node_restore(lent: &mut LentNode, epoch: u32, highest: u32) -> u8
    ensures { (lent.new ≡ restore_at lent.old epoch highest) × (result ≡ lent.new.outcome.answer) }
{
    *lent = restore_node(*lent, epoch, highest);
    lent.outcome.answer
}

// The host starts the node.
#[unsafe(no_mangle)]
pub extern "C" fn wederburh_node_start(
    lent: &mut LentNode,
    time: u64,
    outbox: &mut [u8],
    at: usize,
    kept: &[u8],
    signatures: &[u8],
) -> u8
    ensures { (lent_node lent.new outbox.new kept.now signatures.now ≡ start_at lent.old time outbox.old at kept.now signatures.now) × (result ≡ lent.new.outcome.answer) }
{
    *lent = start_node(*lent, time, outbox, at, kept, signatures);
    lent.outcome.answer
}

// A frame has come over the link of a member, at a time, with verdict bits.
#[unsafe(no_mangle)]
pub extern "C" fn wederburh_node_deliver(
    lent: &mut LentNode,
    link: u8,
    time: u64,
    bits: u64,
    frame: &[u8],
    outbox: &mut [u8],
    at: usize,
    kept: &mut [u8],
    signatures: &mut [u8],
) -> u8
    ensures { (lent_node lent.new outbox.new kept.new signatures.new ≡ deliver_at lent.old link time bits frame.now outbox.old at kept.old signatures.old) × (result ≡ lent.new.outcome.answer) }
{
    *lent = deliver_to(*lent, link, time, bits, frame, outbox, at, kept, signatures);
    lent.outcome.answer
}

// A timer has fired: 0 T_resend, 1 T_progress, 2 T_round, 3 T_grace. Any other number is a timer that is never armed.
#[unsafe(no_mangle)]
pub extern "C" fn wederburh_node_timer(
    lent: &mut LentNode,
    timer: u8,
    time: u64,
    outbox: &mut [u8],
    at: usize,
    kept: &[u8],
    signatures: &mut [u8],
) -> u8
    ensures { (lent_node lent.new outbox.new kept.now signatures.new ≡ timer_at lent.old timer time outbox.old at kept.now signatures.old) × (result ≡ lent.new.outcome.answer) }
{
    *lent = fire_timer(*lent, timer, time, outbox, at, kept, signatures);
    lent.outcome.answer
}

fn fresh_node(lent: LentNode) -> LentNode
    ensures { result ≡ restore_at lent 0 0 }
{
    restore_node(lent, 0, 0)
}

#[tactic(auto, unfolding(crate::specs::Calls::restore_at))]
fn restore_node(lent: LentNode, epoch: u32, highest: u32) -> LentNode
    ensures { result ≡ restore_at lent epoch highest }
{
    let node = lent.node;
    lent.made(Node::restore(node.config, Saved { epoch, highest }))
}

#[tactic(auto, unfolding(crate::specs::Calls::start_at))]
fn start_node(
    lent: LentNode,
    time: u64,
    outbox: &mut [u8],
    at: usize,
    kept: &[u8],
    signatures: &[u8],
) -> LentNode
    ensures { lent_node result outbox.new kept.now signatures.now ≡ start_at lent time outbox.old at kept.now signatures.now }
{
    let node = lent.node;
    lent.called(node.start(time, outbox, at, kept, signatures))
}

#[tactic(auto, unfolding(crate::specs::Calls::deliver_at))]
fn deliver_to(
    lent: LentNode,
    link: u8,
    time: u64,
    bits: u64,
    frame: &[u8],
    outbox: &mut [u8],
    at: usize,
    kept: &mut [u8],
    signatures: &mut [u8],
) -> LentNode
    ensures { lent_node result outbox.new kept.new signatures.new ≡ deliver_at lent link time bits frame.now outbox.old at kept.old signatures.old }
{
    let node = lent.node;
    let arrival = Arrival {
        link,
        time,
        observation: lent.observation,
        commit: lent.commit,
        bits,
        frame,
    };
    lent.called(node.deliver(arrival, outbox, at, kept, signatures))
}

#[tactic(auto, unfolding(crate::specs::Calls::timer_at))]
fn fire_timer(
    lent: LentNode,
    timer: u8,
    time: u64,
    outbox: &mut [u8],
    at: usize,
    kept: &[u8],
    signatures: &mut [u8],
) -> LentNode
    ensures { lent_node result outbox.new kept.now signatures.new ≡ timer_at lent timer time outbox.old at kept.now signatures.old }
{
    let node = lent.node;
    lent.called(timer_call(node, timer, time, outbox, at, kept, signatures))
}

// The timers by their numbers; one that is none of the four is never armed.
#[tactic(auto, unfolding(crate::specs::Calls::timer_call))]
fn timer_call(
    node: Node,
    timer: u8,
    time: u64,
    outbox: &mut [u8],
    at: usize,
    kept: &[u8],
    signatures: &mut [u8],
) -> node::Outcome
    ensures { out result outbox.new kept.now signatures.new ≡ timer_call node timer time outbox.old at kept.now signatures.old }
{
    match Fired::try_from(timer) {
        Ok(fired) => node.timer(fired, time, outbox, at, kept, signatures),
        Err(NoTimer) => node.unarmed(time, &outbox[..], at, kept, &signatures[..]),
    }
}

impl LentNode {
    // What the host finds after a call.
    fn called(self, o: node::Outcome) -> LentNode
        ensures { result ≡ after_call self o }
    {
        let node = o.node;
        let handed = o.handed;
        let timers = o.timers;
        let outcome = NodeOutcome {
            written: o.written,
            start: handed.start,
            len: handed.len,
            held: flag_of(handed.held),
            resend: timer_number(timers.resend),
            progress: timer_number(timers.progress),
            round: timer_number(timers.round),
            grace: timer_number(timers.grace),
            answer: config::number(o.answer),
        };
        LentNode {
            node,
            outcome,
            ..self
        }
    }

    // What the host finds after a node was made: the new one, or the one before where the numbers are refused.
    pub(crate) fn made(self, m: node::Made) -> LentNode
        ensures { result ≡ after_made self m }
    {
        let outcome = NodeOutcome {
            written: 0,
            start: 0,
            len: 0,
            held: 0,
            resend: 0,
            progress: 0,
            round: 0,
            grace: 0,
            answer: config::number(m.answer),
        };
        if m.answer.is_ok() {
            let node = m.node;
            return LentNode {
                node,
                outcome,
                ..self
            };
        }
        LentNode { outcome, ..self }
    }
}

fn flag_of(b: bool) -> u8
    ensures { result ≡ flag_of b }
{
    u8::from(b)
}

fn timer_number(timer: Timer) -> u8
    ensures { result ≡ timer_number timer }
{
    match timer {
        Timer::Leave => 0,
        Timer::Start => 1,
        Timer::Stop => 2,
    }
}
