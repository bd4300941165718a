// The codes of document 01, and what they say.
ghost use Rattle.std.specs.Prelude.{◌≡◌, Err};
ghost use Rattle.config.specs.Codes.{number_of, making};

use crate::{Answer, Refusal};

impl Refusal {
    // The number that document 01 gives the refusal.
    #[tactic(auto, unfolding(crate::specs::Codes::number_of))]
    pub fn number(self) -> u8
        ensures { result ≡ number_of (Err self) }
    {
        match self {
            Refusal::Ignored => 1,
            Refusal::State => 2,
            Refusal::Room => 3,
            Refusal::Short => 4,
            Refusal::Version => 5,
            Refusal::Kind => 6,
            Refusal::Sender => 7,
            Refusal::Length => 8,
            Refusal::Range => 9,
            Refusal::Proof => 10,
            Refusal::End => 11,
            Refusal::Config => 12,
            Refusal::Old => 13,
            Refusal::Few => 14,
            Refusal::Order => 15,
            Refusal::Twice => 16,
            Refusal::Signers => 17,
            Refusal::Funds => 18,
            Refusal::Similar => 19,
            Refusal::Queue => 20,
        }
    }
}

// The code that document 01 gives an answer.
#[tactic(auto, unfolding(crate::specs::Codes::number_of))]
pub fn number(answer: Answer) -> u8
    ensures { result ≡ number_of answer }
{
    match answer {
        Ok(()) => 0,
        Err(refusal) => refusal.number(),
    }
}

// What making a fresh state answers: CONFIG where what it is made of is out of range.
pub fn of_making(good: bool) -> Answer
    ensures { result ≡ making good }
{
    if good { Ok(()) } else { Err(Refusal::Config) }
}
