// The call: one event for a lent list of one to four records (document 02, request 9).
ghost use Rattle.std.specs.Prelude.{◌≡◌};
ghost use Rattle.chassis.specs.Chassis.{Called};
ghost use Rattle.chassis.specs.Passing.{told_after};

use crate::looking::look;
use crate::passing::pass;
use crate::{Errand, MOST, Round, Told};
use dock::Controller;

impl Errand {
    // What the call answers after its round.
    pub fn told(self, round: Round) -> Told
        ensures { result ≡ told_after self.verdict round }
    {
        match self.verdict {
            Ok(_) => {
                let outputs = round.outputs;
                Told {
                    answer: Ok(round.reply),
                    outputs,
                }
            }
            Err(refusal) => Told {
                answer: Err(refusal),
                outputs: [0; MOST],
            },
        }
    }
}

// The record that PINS or RESET names counts from 0, and is looked at for these two alone.
#[tactic(auto, using(crate::proofs::Looked::judged_seen, crate::proofs::Rounds::passed_records, crate::proofs::Rounds::passed_told))]
pub fn step(list: &mut [Controller], named: usize, word: u16) -> Told
    ensures { Called list.old named word list.new result }
{
    let errand = look(list).errand(list.len(), named, word);
    let round = pass(list, errand);
    errand.told(round)
}
