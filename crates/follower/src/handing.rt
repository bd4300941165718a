// Where the report lies that is handed out.
ghost use Rattle.std.specs.Prelude.{◌≡◌, true, cond};
ghost use Rattle.report.specs.Whole.{WholeReport};
ghost use Rattle.follower.specs.State.{is_set};
ghost use Rattle.follower.specs.Handed.{handed_of, handed_part};

use crate::Handed;

// Where the report lies that is handed out, if one is: the flag says whether one was kept as the call began.
#[tactic(auto, using(report::proofs::Whole::report_head, report::proofs::Whole::report_list_end))]
pub fn handed_of(out: bool, flag: u8, kept: &[u8], body: &[u8]) -> Handed
    requires { out ≡ true → WholeReport (cond (is_set flag) kept.now body.now) }
    ensures { result ≡ handed_of out (is_set flag) kept.now body.now }
{
    let held = flag == 1;
    if !out {
        return Handed {
            held,
            start: 0,
            len: 0,
        };
    }
    if held {
        return Handed {
            held,
            start: 0,
            len: frame::final_length(kept),
        };
    }
    Handed {
        held,
        start: 0,
        len: frame::final_length(body),
    }
}

// The report that is handed out, as a part of the kept buffer or of the arriving frame; an empty part where none is.
pub fn handed_part<'a>(handed: Handed, kept: &'a [u8], frame: &'a [u8]) -> &'a [u8]
    ensures { result.now ≡ handed_part handed kept.now frame.now }
{
    let start = handed.start;
    let len = handed.len;
    if handed.held {
        return report::part_of(kept, start, len);
    }
    report::part_of(frame, start, len)
}
