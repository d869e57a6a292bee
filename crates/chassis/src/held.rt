// The same for records that a program holds by value, so that who has no list to lend needs none.
ghost use Rattle.std.specs.Prelude.{◌≡◌, ◌≤◌};
ghost use Rattle.chassis.specs.Judge.{MOST};
ghost use Rattle.chassis.specs.Held.{lent_of, stepped_of};

use crate::stepping::step;
use crate::{Chassis, Lent, MOST, Refusal, Stepped, Told};
use dock::Controller;

// The first so many of four places are lent as a list.
fn lend(records: [Controller; MOST], count: usize, named: usize, word: u16) -> Lent
    requires { count ≤ MOST }
    ensures { result ≡ lent_of records count named word }
{
    let mut places = records;
    let told = step(&mut places[..count], named, word);
    Lent {
        records: places,
        told,
    }
}

impl Chassis {
    #[tactic(auto, unfolding(crate::specs::Held::stepped_of, crate::specs::Chassis::told_by))]
    pub fn step(self, named: usize, word: u16) -> Stepped
        ensures { result ≡ stepped_of self named word }
    {
        let count = self.count;
        if MOST < count {
            return Stepped {
                chassis: self,
                told: Told {
                    answer: Err(Refusal::WrongLength),
                    outputs: [0; MOST],
                },
            };
        }
        let Lent { records, told } = lend(self.records, count, named, word);
        Stepped {
            chassis: Chassis { records, count },
            told,
        }
    }
}
