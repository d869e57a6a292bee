// The paper's numbers of the refusals (document 02, request 9).
ghost use Rattle.std.specs.Prelude.{◌≡◌};
ghost use Rattle.chassis.specs.Numbers.{refusal_number};

use crate::Refusal;

impl Refusal {
    pub fn number(self) -> u8
        ensures { result ≡ refusal_number self }
    {
        match self {
            Refusal::WrongLength => 9,
            Refusal::Unfit => 1,
            Refusal::StrayBit => 2,
            Refusal::Absent => 10,
            Refusal::NotStarted => 3,
            Refusal::AddressTaken => 11,
        }
    }
}
