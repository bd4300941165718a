// The calls of a sender.
ghost use Rattle.std.specs.Prelude.{◌≡◌};
ghost use Rattle.host.specs.Numbers.{transmit_number, milliseconds_of};
ghost use Rattle.host.specs.Lent.{after_transmit, after_timeout, after_sender_made, lent_sender};
ghost use Rattle.host.specs.Calls.{sender_fresh_at, transmit_at, timeout_at};

use crate::{LentSender, SenderOutcome};
use sender::{Sender, Transmit};

// A sender that has accepted nothing.
#[unsafe(no_mangle)]
pub extern "C" fn wederburh_sender_fresh(lent: &mut LentSender) -> u8
    ensures { (lent.new ≡ sender_fresh_at lent.old) × (result ≡ lent.new.outcome.answer) }
{
    *lent = fresh_sender(*lent);
    lent.outcome.answer
}

// A FINAL body is to be transmitted, as the host's permutation orders the members.
#[unsafe(no_mangle)]
pub extern "C" fn wederburh_sender_transmit(
    lent: &mut LentSender,
    body: &[u8],
    time: u64,
    permutation: &[u8],
    waiting: &mut [u8],
) -> u8
    ensures { (lent_sender lent.new waiting.new ≡ transmit_at lent.old body.now time permutation.now waiting.old) × (result ≡ lent.new.outcome.answer) }
{
    *lent = transmit_body(*lent, body, time, permutation, waiting);
    lent.outcome.answer
}

// T_transmit fires.
#[unsafe(no_mangle)]
pub extern "C" fn wederburh_sender_timeout(lent: &mut LentSender, time: u64, waiting: &[u8]) -> u8
    ensures { (lent.new ≡ timeout_at lent.old time waiting.now) × (result ≡ lent.new.outcome.answer) }
{
    *lent = time_out(*lent, time, waiting);
    lent.outcome.answer
}

#[tactic(auto, unfolding(crate::specs::Calls::sender_fresh_at))]
fn fresh_sender(lent: LentSender) -> LentSender
    ensures { result ≡ sender_fresh_at lent }
{
    let sender = lent.sender;
    lent.made(Sender::fresh(sender.config))
}

#[tactic(auto, unfolding(crate::specs::Calls::transmit_at))]
fn transmit_body(
    lent: LentSender,
    body: &[u8],
    time: u64,
    permutation: &[u8],
    waiting: &mut [u8],
) -> LentSender
    ensures { lent_sender result waiting.new ≡ transmit_at lent body.now time permutation.now waiting.old }
{
    let sender = lent.sender;
    lent.queued(sender.transmit(body, time, lent.commit, permutation, waiting))
}

#[tactic(auto, unfolding(crate::specs::Calls::timeout_at))]
fn time_out(lent: LentSender, time: u64, waiting: &[u8]) -> LentSender
    ensures { result ≡ timeout_at lent time waiting.now }
{
    let sender = lent.sender;
    lent.released(sender.timeout(time, lent.commit, waiting))
}

impl LentSender {
    // What the host finds after a transmission.
    fn queued(self, q: sender::Queued) -> LentSender
        ensures { result ≡ after_transmit self q }
    {
        let answer = q.answer;
        let sender = q.sender;
        let transmit = q.transmit;
        let outcome = SenderOutcome {
            milliseconds: milliseconds_of(transmit),
            start: 0,
            len: 0,
            transmit: transmit_number(transmit),
            answer: config::number(answer),
        };
        LentSender {
            sender,
            outcome,
            ..self
        }
    }

    // What the host finds after a timeout.
    fn released(self, t: sender::Released) -> LentSender
        ensures { result ≡ after_timeout self t }
    {
        let answer = t.answer;
        let sender = t.sender;
        let transmit = t.transmit;
        let (start, len) = t.handed.map_or((0, 0), |part| (part.start, part.len));
        let outcome = SenderOutcome {
            milliseconds: milliseconds_of(transmit),
            start,
            len,
            transmit: transmit_number(transmit),
            answer: config::number(answer),
        };
        LentSender {
            sender,
            outcome,
            ..self
        }
    }

    // What the host finds after a sender was made: the new one, or the one before where the configuration is refused.
    pub(crate) fn made(self, m: sender::Made) -> LentSender
        ensures { result ≡ after_sender_made self m }
    {
        let answer = m.answer;
        let outcome = SenderOutcome {
            milliseconds: 0,
            start: 0,
            len: 0,
            transmit: 0,
            answer: config::number(answer),
        };
        if answer.is_ok() {
            let sender = m.sender;
            return LentSender {
                sender,
                outcome,
                ..self
            };
        }
        LentSender { outcome, ..self }
    }
}

fn transmit_number(transmit: Transmit) -> u8
    ensures { result ≡ transmit_number transmit }
{
    match transmit {
        Transmit::Leave => 0,
        Transmit::Set(_) => 1,
        Transmit::Stop => 2,
    }
}

fn milliseconds_of(transmit: Transmit) -> u64
    ensures { result ≡ milliseconds_of transmit }
{
    match transmit {
        Transmit::Leave => 0,
        Transmit::Set(milliseconds) => milliseconds,
        Transmit::Stop => 0,
    }
}
