// The slots of the waiting reports: which is free, and which is due first.
ghost use Rattle.std.specs.Prelude.{◌≡◌, cond, ◌&&◌, ◌||◌, ◌≤◌, ◌<◌, eqb, length, IfSome, unwrap_or};
ghost use Rattle.config.specs.Limits.{slots, waiting_size};
ghost use Rattle.report.specs.Newer.{newer};
ghost use Rattle.sender.specs.State.{slot_in, report_in, taken};
ghost use Rattle.sender.specs.Waiting.{sooner, earliest, free_in, IsSlot, transmit_at};
ghost use Rattle.sender.specs.Calls.{with_slot};

use crate::{Sender, Transmit};
use config::Config;

impl Sender {
    // The sender with a slot taken (1) until a time, or free (0).
    pub(crate) fn with_slot(mut self, slot: usize, flag: u8, time: u64) -> Sender
        requires { slot < slots }
        ensures { result ≡ with_slot self slot flag time }
    {
        self.taken[slot] = flag;
        self.times[slot] = time;
        self
    }

    // When T_transmit is to fire.
    #[tactic(auto, unfolding(crate::specs::Waiting::transmit_at))]
    pub(crate) fn transmit_at(&self, waiting: &[u8], time: u64) -> Transmit
        requires { waiting_size ≤ length waiting.now }
        ensures { result ≡ transmit_at self.now waiting.now time }
    {
        match self.earliest(waiting) {
            Some(slot) => Transmit::Set(self.times[slot].saturating_sub(time)),
            None => Transmit::Stop,
        }
    }

    // The slot of the earliest report, where one waits.
    #[tactic(auto, unfolding(crate::specs::Waiting::earliest_below))]
    pub(crate) fn earliest(&self, waiting: &[u8]) -> Option<usize>
        requires { waiting_size ≤ length waiting.now }
        ensures { IsSlot result (earliest self.now waiting.now) }
    {
        let mut best: Option<usize> = None;
        for (slot, flag) in self.taken.iter().enumerate() {
            best = self.better(waiting, *flag, slot, best);
        }
        best
    }

    // This slot, where a report waits in it that is sooner than the best one so far; else that one.
    fn better(&self, waiting: &[u8], flag: u8, slot: usize, best: Option<usize>) -> Option<usize>
        requires { (waiting_size ≤ length waiting.now) × (slot < slots) × IfSome best (λ other. other < slots) }
        ensures { IsSlot result (cond (eqb flag 1 && (eqb (unwrap_or best slots) slots || sooner self.now waiting.now slot (unwrap_or best slots))) slot (unwrap_or best slots)) }
    {
        if flag == 1 && best.is_none_or(|other| self.sooner(waiting, slot, other)) {
            Some(slot)
        } else {
            best
        }
    }

    // Whether the report in slot a is due before the one in slot b: by time, then epoch, then round.
    fn sooner(&self, waiting: &[u8], a: usize, b: usize) -> bool
        requires { (waiting_size ≤ length waiting.now) × (a < slots) × (b < slots) }
        ensures { result ≡ sooner self.now waiting.now a b }
    {
        let first = self.times[a];
        let second = self.times[b];
        first < second || first == second && before(numbers_in(waiting, a), numbers_in(waiting, b))
    }
}

// Whether one pair of epoch and round is before another.
fn before(one: (u32, u8), other: (u32, u8)) -> bool
    ensures { result ≡ newer other.0 other.1 one.0 one.1 }
{
    one < other
}

// Epoch and round of the report in a slot.
#[tactic(auto, using(crate::proofs::Slots::length_slot))]
fn numbers_in(waiting: &[u8], slot: usize) -> (u32, u8)
    requires { (waiting_size ≤ length waiting.now) × (slot < slots) }
    ensures { result ≡ ((report_in waiting.now slot).epoch, (report_in waiting.now slot).round) }
{
    let bytes = slot_in(waiting, slot);
    (frame::epoch_of(bytes), frame::round_of(bytes))
}

// The bytes of a slot.
#[tactic(auto, using(frame::proofs::Access::part_from))]
pub(crate) fn slot_in(waiting: &[u8], slot: usize) -> &[u8]
    requires { (waiting_size ≤ length waiting.now) × (slot < slots) }
    ensures { result.now ≡ slot_in waiting.now slot }
{
    let start = slot * Config::KEPT;
    let end = start + Config::KEPT;
    &waiting[start..end]
}

// The lowest free slot, where one is free.
pub(crate) fn free_in(taken: [u8; Config::SLOTS]) -> Option<usize>
    ensures { IsSlot result (free_in taken) }
{
    taken.iter().position(|flag| *flag != 1)
}
