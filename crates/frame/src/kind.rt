// The kinds of frames.
ghost use Rattle.std.specs.Prelude.{◌≡◌, true, false, MatchResult};
ghost use Rattle.config.specs.declared.Refusal.TheVariants as refusal;
ghost use Rattle.frame.specs.Table.{good_kind};
ghost use Rattle.frame.specs.Kinds.{number_of};

use config::Refusal;

// The seven kinds, by their numbers, in the order of document 01's table.
#[derive(Clone, Copy, PartialEq, Eq)]
pub enum Kind {
    NewEpoch = 1,
    ObserveReq = 2,
    Observe = 3,
    ReportReq = 4,
    Report = 5,
    Final = 6,
    FinalEcho = 7,
}

// A number is no kind.
#[derive(Clone, Copy)]
pub struct NoKind;

impl Kind {
    // The number that a frame of the kind bears.
    pub fn number(self) -> u8
        ensures { result ≡ number_of self }
    {
        self as u8
    }
}

impl TryFrom<u8> for Kind {
    type Error = NoKind;

    ghost try_from_gives = { λ x r. MatchResult r (λ k. (number_of k ≡ x) × (good_kind x ≡ true)) (λ _. good_kind x ≡ false) };

    fn try_from(number: u8) -> Result<Kind, NoKind> {
        match number {
            1 => Ok(Kind::NewEpoch),
            2 => Ok(Kind::ObserveReq),
            3 => Ok(Kind::Observe),
            4 => Ok(Kind::ReportReq),
            5 => Ok(Kind::Report),
            6 => Ok(Kind::Final),
            7 => Ok(Kind::FinalEcho),
            _ => Err(NoKind),
        }
    }
}

impl From<NoKind> for Refusal {
    ghost from_gives = { λ _ why. why ≡ refusal.Kind };

    fn from(_none: NoKind) -> Refusal {
        Refusal::Kind
    }
}
