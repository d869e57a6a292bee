// The paper's numbers of an answer.
ghost use Rattle.std.specs.Prelude.{◌≡◌};
ghost use Rattle.queue.specs.Numbers.{number_of, outcome_refusal, outcome_word};

use crate::Refusal;

impl Refusal {
    pub fn number(self) -> u8
        ensures { result ≡ number_of self }
    {
        match self {
            Refusal::Unfit => 1,
            Refusal::Full => 7,
            Refusal::Empty => 8,
        }
    }
}

// The number of its refusal; 0 where there was none.
pub fn number(outcome: Result<u16, Refusal>) -> u8
    ensures { result ≡ outcome_refusal outcome }
{
    match outcome {
        Ok(_) => 0,
        Err(refusal) => refusal.number(),
    }
}

// The same of what became of a put, which gives no word.
pub fn put_number(outcome: Result<(), Refusal>) -> u8
    ensures { result ≡ outcome_refusal outcome }
{
    match outcome {
        Ok(()) => 0,
        Err(refusal) => refusal.number(),
    }
}

// The word taken; 0 where none was.
pub fn word(outcome: Result<u16, Refusal>) -> u16
    ensures { result ≡ outcome_word outcome }
{
    outcome.unwrap_or(0)
}
