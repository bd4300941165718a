// The two long frames of a leader.
ghost use Rattle.std.specs.Prelude.{◌≤◌, length};
ghost use Rattle.config.specs.Limits.{members, signatures_size};
ghost use Rattle.outbox.specs.Written.{Wrote, Fits};
ghost use Rattle.leader.specs.Listed.{order, request_of, final_of, lowest_signers};

use crate::{Leader, listing};
use config::Config;

impl Leader {
    // Writes REPORT-REQ with the list.
    #[tactic(auto, using(crate::proofs::Marked::order_members, crate::proofs::Marked::order_most))]
    pub fn write_request(
        self,
        config: Config,
        epoch: u32,
        signatures: &[u8],
        outbox: &mut [u8],
        at: usize,
    ) -> usize
        requires { (config.n ≤ members) × (signatures_size ≤ length signatures.now) × Fits 4 (length (order config.n self.observed self.values)) 0 outbox.old at }
        ensures { Wrote config (request_of config.n epoch self signatures.now) outbox.old at outbox.new result }
    {
        let line = listing::order(config.n, &self.observed, &self.values);
        outbox::write_report_req(
            outbox,
            at,
            config,
            epoch,
            self.round,
            line.as_slice(),
            &self.values,
            signatures,
        )
    }

    // Writes FINAL with the list and the lowest f + 1 signers.
    #[tactic(auto, using(crate::proofs::Marked::order_members, crate::proofs::Marked::order_most, crate::proofs::Marked::lowest_members, crate::proofs::Marked::lowest_most))]
    pub fn write_final(
        self,
        config: Config,
        epoch: u32,
        signatures: &[u8],
        outbox: &mut [u8],
        at: usize,
    ) -> usize
        requires { (config.n ≤ members) × (signatures_size ≤ length signatures.now) × Fits 6 (length (order config.n self.observed self.values)) (length (lowest_signers config.n config.f self)) outbox.old at }
        ensures { Wrote config (final_of config.n config.f epoch self signatures.now) outbox.old at outbox.new result }
    {
        let list = listing::order(config.n, &self.observed, &self.values);
        let signers = listing::lowest_signers(config.n, config.f, &self.reported);
        let from = Config::REPORT_SIGNATURES;
        outbox::write_final(
            outbox,
            at,
            config,
            epoch,
            self.round,
            list.as_slice(),
            &self.values,
            signers.as_slice(),
            &signatures[from..],
        )
    }
}
