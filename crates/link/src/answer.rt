// The one layout of an answer: the refusal in bits 23-16, and a value below it.
ghost use Rattle.std.specs.Prelude.{◌≡◌, ◌≤◌};
ghost use Rattle.calls.specs.Numbers.{outcome_count};
ghost use Rattle.link.specs.Answer.{both, value_in, batched_as};

use calls::Outcome;

pub(crate) fn both(refusal: u8, value: u16) -> u32
    ensures { result ≡ both refusal value }
{
    refusal as u32 * 65536 + value as u32
}

// The value below a refusal.
pub(crate) fn value(answer: u32) -> u16
    ensures { result ≡ value_in answer }
{
    (answer % 65536) as u16
}

// The refusal and the count of a call over lists.
pub(crate) fn counted(outcome: Outcome) -> u32
    requires { outcome_count outcome ≤ 16384 }
    ensures { result ≡ batched_as outcome }
{
    both(calls::number(outcome), calls::count(outcome) as u16)
}
