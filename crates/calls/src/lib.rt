// Why a call over lent lists is refused, whatever the lists hold, and the numbers of its answer.
#![tactic(auto)]

ghost use Rattle.std.specs.Prelude.{◌≡◌};
ghost use Rattle.calls.specs.Numbers.{number_of, outcome_refusal, outcome_count};

#[derive(Clone, Copy, PartialEq, Eq, Debug)]
pub enum Refusal {
    // What is held isn't fit.
    Unfit,
    // Fewer places than what is to be written may need.
    TooFewPlaces,
    // The list is longer than one call takes.
    TooMany,
}

// What such a call answers: how many were taken or written, or why it was refused.
pub type Outcome = Result<usize, Refusal>;

impl Refusal {
    // The paper's number for it.
    pub fn number(self) -> u8
        ensures { result ≡ number_of self }
    {
        match self {
            Refusal::Unfit => 1,
            Refusal::TooFewPlaces => 4,
            Refusal::TooMany => 5,
        }
    }
}

// The number of its refusal; 0 where there was none.
pub fn number(outcome: Outcome) -> u8
    ensures { result ≡ outcome_refusal outcome }
{
    match outcome {
        Ok(_) => 0,
        Err(refusal) => refusal.number(),
    }
}

// How many; none where the call was refused.
pub fn count(outcome: Outcome) -> usize
    ensures { result ≡ outcome_count outcome }
{
    outcome.unwrap_or(0)
}
